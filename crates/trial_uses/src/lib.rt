// The names and the uses that ASCII AIGER texts by chance are made of, and what is wrong in them.
#![tactic(auto)]

use text::bytes::{get, put};
use trial_pieces::dice::{chance, roll, roll_from};
use trial_pieces::pieces::plus;

// Sections by their numbers of lines; `step` is how literals go on, `turned` whether they go down from the largest, `mixed` how
// many change places, `order` how the gates stand, `fault` what is wrong.
#[derive(Clone, Copy)]
pub struct Plan {
    pub inputs: usize,
    pub latches: usize,
    pub outputs: usize,
    pub gates: usize,
    pub step: usize,
    pub turned: bool,
    pub mixed: usize,
    pub order: usize,
    pub fault: usize,
}

// What can be wrong; all others are right.
pub const TWICE: usize = 1;

pub const UNDEFINED: usize = 2;

pub const DEFINITION: usize = 3;

pub const MAXIMUM: usize = 4;

pub const RESET: usize = 5;

pub const HEADER: usize = 6;

pub const NO_OUTPUT: usize = 7;

// Of long texts alone: a gate uses itself.
pub const LOOP: usize = 8;

// Stands for a literal that no line defines.
pub const STRANGER: u32 = u32::MAX;

pub fn minus(x: usize, y: usize) -> usize {
    x.wrapping_sub(y)
}

pub fn short(value: usize) -> u32 {
    (value % 4294967296) as u32
}

pub fn twice(value: usize) -> usize {
    2 * (value % 65536)
}

pub fn sources_of(plan: Plan) -> usize {
    plus(1, plus(plan.inputs, plan.latches))
}

pub fn nodes_of(plan: Plan) -> usize {
    plus(sources_of(plan), plan.gates)
}

pub fn rows_of(plan: Plan) -> usize {
    plus(nodes_of(plan), plan.outputs)
}

// ---- two numbers change places

pub fn swap(numbers: &mut [u32], x: usize, y: usize) {
    let first = get(numbers, x);
    let second = get(numbers, y);
    put(numbers, x, second);
    put(numbers, y, first);
}

pub fn swap_if(moved: bool, numbers: &mut [u32], x: usize, y: usize) {
    if moved {
        swap(numbers, x, y);
    }
}

// Each of these with one before it, one time in `rarely`.
pub fn mix(seed: &mut u64, numbers: &mut [u32], from: usize, end: usize, rarely: usize) {
    for at in from..end {
        let sides = plus(minus(at, from), 1);
        let other = roll_from(seed, from, sides);
        let moved = chance(seed, rarely);
        swap_if(moved, numbers, at, other);
    }
}

// All change places, few do, or none.
pub fn mix_some(seed: &mut u64, numbers: &mut [u32], from: usize, end: usize, how: usize) {
    match how {
        0 => {}
        1 => mix(seed, numbers, from, end, 16),
        _ => mix(seed, numbers, from, end, 1),
    }
}

// ---- names

// How much larger the next literal is.
pub fn step_of(seed: &mut u64, kind: usize) -> u32 {
    let few = roll_from(seed, 1, 3);
    let many = roll_from(seed, 1, 1000);
    let broken = if chance(seed, 12) { few } else { 1 };
    let variables = match kind {
        1 => few,
        2 => many,
        3 => broken,
        4 => 32768,
        _ => 1,
    };
    short(twice(variables))
}

// The literals of the nodes, 0 for the constant.
pub fn put_names(seed: &mut u64, plan: Plan, names: &mut [u32]) {
    let mut literal: u32 = 0;
    let nodes = nodes_of(plan);
    for node in 0..nodes {
        let down = 0u32.wrapping_sub(literal);
        let name = if plan.turned { down } else { literal };
        put(names, node, name);
        literal = literal.wrapping_add(step_of(seed, plan.step));
    }
    mix_some(seed, names, 1, nodes, plan.mixed);
}

pub fn largest(names: &[u32], nodes: usize) -> u32 {
    let mut top = 0;
    for node in 0..nodes {
        top = get(names, node).max(top);
    }
    top
}

// ---- gates

// The nodes so that each gate may use those before it.
pub fn put_order(seed: &mut u64, plan: Plan, order: &mut [u32]) {
    let sources = sources_of(plan);
    let nodes = nodes_of(plan);
    let turned = plan.order == 3;
    for rank in 0..nodes {
        let back = minus(plus(sources, minus(nodes, rank)), 1);
        let down = turned && rank >= sources;
        let node = if down { back } else { rank };
        put(order, rank, short(node));
    }
    mix_some(seed, order, sources, nodes, plan.order % 3);
}

// A literal of a node before this one in the order: a near one, or any.
pub fn earlier(seed: &mut u64, order: &[u32], rank: usize) -> u32 {
    let back = roll_from(seed, 1, 8);
    let any = roll(seed, rank);
    let near = if back > rank { any } else { minus(rank, back) };
    let place = if chance(seed, 2) { near } else { any };
    let node = get(order, place) as usize;
    short(plus(twice(node), roll(seed, 2)))
}

pub fn put_operands(seed: &mut u64, plan: Plan, order: &[u32], uses: &mut [u32]) {
    let sources = sources_of(plan);
    let nodes = nodes_of(plan);
    for rank in sources..nodes {
        let node = get(order, rank) as usize;
        put(uses, twice(node), earlier(seed, order, rank));
        put(uses, plus(twice(node), 1), earlier(seed, order, rank));
    }
}

// ---- other uses

pub fn any_use(seed: &mut u64, nodes: usize) -> u32 {
    short(roll(seed, twice(nodes)))
}

// What rows `from` to `end` use first: any node.
pub fn put_uses(seed: &mut u64, plan: Plan, uses: &mut [u32], from: usize, end: usize) {
    let nodes = nodes_of(plan);
    for row in from..end {
        put(uses, twice(row), any_use(seed, nodes));
    }
}

// Some operands become any literal, so that there may be loops.
pub fn redraw(seed: &mut u64, plan: Plan, uses: &mut [u32], count: usize) {
    let sources = sources_of(plan);
    let nodes = nodes_of(plan);
    for _ in 0..count {
        let gate = roll_from(seed, sources, plan.gates);
        let side = roll(seed, 2);
        put(uses, plus(twice(gate), side), any_use(seed, nodes));
    }
}

pub fn put_all_uses(seed: &mut u64, plan: Plan, order: &mut [u32], uses: &mut [u32]) {
    let loops = if chance(seed, 2) { roll(seed, 8) } else { 0 };
    let latches = plus(plan.inputs, 1);
    put_order(seed, plan, order);
    put_operands(seed, plan, order, uses);
    put_uses(seed, plan, uses, latches, sources_of(plan));
    put_uses(seed, plan, uses, nodes_of(plan), rows_of(plan));
    redraw(seed, plan, uses, loops);
}

// ---- what is wrong in names and uses

// A definition is that of another, odd, or the constant.
pub fn spoil_names(seed: &mut u64, plan: Plan, names: &mut [u32]) {
    let others = minus(nodes_of(plan), 1);
    let one = roll_from(seed, 1, others);
    let two = roll_from(seed, 1, others);
    let odd = get(names, two).wrapping_add(1);
    let wrong = if chance(seed, 2) { odd } else { 0 };
    let again = get(names, one);
    let name = if plan.fault == TWICE { again } else { wrong };
    if plan.fault == TWICE || plan.fault == DEFINITION {
        put(names, two, name);
    }
}

// A use of a literal that no line defines: by a latch, a gate or an output.
pub fn spoil_uses(seed: &mut u64, plan: Plan, uses: &mut [u32]) {
    let first = plus(plan.inputs, 1);
    let users = minus(rows_of(plan), first);
    let row = roll_from(seed, first, users);
    let gate = row >= sources_of(plan) && row < nodes_of(plan);
    let side = roll(seed, 2);
    let at = if gate {
        plus(twice(row), side)
    } else {
        twice(row)
    };
    if plan.fault == UNDEFINED {
        put(uses, at, STRANGER);
    }
}

pub fn put_loop(seed: &mut u64, plan: Plan, uses: &mut [u32]) {
    if plan.fault != LOOP {
        return;
    }
    let gate = roll_from(seed, sources_of(plan), plan.gates);
    let side = roll(seed, 2);
    put(uses, plus(twice(gate), side), short(twice(gate)));
}

// A literal that no line defines, or rarely does.
pub fn stranger_of(seed: &mut u64, plan: Plan, names: &[u32], maximum: usize) -> usize {
    let above = plus(plus(maximum, maximum), 2);
    let node = roll(seed, nodes_of(plan));
    let beside = plus(get(names, node) as usize, 2);
    let inverted = roll(seed, 2);
    let any = roll(seed, 4294967296);
    let literal = match roll(seed, 4) {
        0 => above,
        1 | 2 => beside,
        _ => any,
    };
    plus(literal, inverted)
}
