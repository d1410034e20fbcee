// ASCII AIGER texts by chance: how many lines of each section, what the lines are, and damage done to them.
#![tactic(auto)]

use text::bytes::{find, get, put};
use text::out::{Out, one, put_filled, three, two};
use text::streams::Nowhere;
use trial_pieces::dice::{chance, roll, roll_from};
use trial_pieces::pieces::plus;
use trial_uses::{
    HEADER, MAXIMUM, NO_OUTPUT, Plan, RESET, STRANGER, TWICE, largest, minus, nodes_of,
    put_all_uses, put_loop, put_names, rows_of, sources_of, spoil_names, spoil_uses, stranger_of,
    twice,
};

// The text's literal for a literal of the rows.
fn literal_of(names: &[u32], used: u32, stranger: usize) -> usize {
    let node = (used / 2) as usize;
    let name = get(names, node) as usize;
    if used == STRANGER {
        stranger
    } else {
        plus(name, (used % 2) as usize)
    }
}

fn put_inputs(plan: Plan, names: &[u32], text: &mut [u8], out: Out) -> Out {
    let mut now = out;
    for at in 0..plan.inputs {
        let name = get(names, plus(at, 1)) as usize;
        now = put_filled(&Nowhere, text, now, b"#\n", one(name));
    }
    now
}

// A latch with its reset missing, 0, 1 or itself, or with a wrong one.
fn put_latch(
    seed: &mut u64,
    name: usize,
    next: usize,
    wrong: bool,
    text: &mut [u8],
    out: Out,
) -> Out {
    let near = plus(minus(name, 2), roll(seed, 5));
    let low = plus(2, roll(seed, 2));
    let other = if chance(seed, 2) { near } else { low };
    if wrong {
        return put_filled(&Nowhere, text, out, b"# # #\n", three(name, next, other));
    }
    match roll(seed, 4) {
        0 => put_filled(&Nowhere, text, out, b"# #\n", two(name, next)),
        1 => put_filled(&Nowhere, text, out, b"# # #\n", three(name, next, 0)),
        2 => put_filled(&Nowhere, text, out, b"# # #\n", three(name, next, 1)),
        _ => put_filled(&Nowhere, text, out, b"# # #\n", three(name, next, name)),
    }
}

fn put_latches(
    seed: &mut u64,
    plan: Plan,
    names: &[u32],
    uses: &[u32],
    stranger: usize,
    text: &mut [u8],
    out: Out,
) -> Out {
    let mut now = out;
    for row in plus(plan.inputs, 1)..sources_of(plan) {
        let name = get(names, row) as usize;
        let next = literal_of(names, get(uses, twice(row)), stranger);
        let wrong = plan.fault == RESET && chance(seed, 2);
        now = put_latch(seed, name, next, wrong, text, now);
    }
    now
}

fn put_outputs(
    plan: Plan,
    names: &[u32],
    uses: &[u32],
    stranger: usize,
    text: &mut [u8],
    out: Out,
) -> Out {
    let mut now = out;
    for row in nodes_of(plan)..rows_of(plan) {
        let shown = literal_of(names, get(uses, twice(row)), stranger);
        now = put_filled(&Nowhere, text, now, b"#\n", one(shown));
    }
    now
}

fn put_gates(
    plan: Plan,
    names: &[u32],
    uses: &[u32],
    stranger: usize,
    text: &mut [u8],
    out: Out,
) -> Out {
    let mut now = out;
    for row in sources_of(plan)..nodes_of(plan) {
        let name = get(names, row) as usize;
        let first = literal_of(names, get(uses, twice(row)), stranger);
        let second = literal_of(names, get(uses, plus(twice(row), 1)), stranger);
        now = put_filled(&Nowhere, text, now, b"# # #\n", three(name, first, second));
    }
    now
}

// Symbols and comments, lines that could be counted, anything, or nothing.
fn put_rest(seed: &mut u64, text: &mut [u8], out: Out) -> Out {
    let number = roll(seed, 100);
    match roll(seed, 6) {
        0 => put_filled(
            &Nowhere,
            text,
            out,
            b"i0 a\no0 b\nc\nmade by hand\n",
            text::out::none(),
        ),
        1 => put_filled(
            &Nowhere,
            text,
            out,
            b"#\n# # #\n",
            three(number, number, number),
        ),
        2 => put_filled(&Nowhere, text, out, b"\xff\x00\r #", one(number)),
        3 => put_filled(&Nowhere, text, out, b"c", text::out::none()),
        _ => out,
    }
}

// M: mostly the largest variable, else more, or with this fault less.
fn maximum_of(seed: &mut u64, plan: Plan, names: &[u32]) -> usize {
    let top = (largest(names, nodes_of(plan)) / 2) as usize;
    let more = plus(top, roll(seed, 10));
    let less = minus(top, 1);
    let tight = if chance(seed, 3) { more } else { top };
    let wide = if chance(seed, 8) { 4294967295 } else { tight };
    let low = plan.fault == MAXIMUM && top != 0;
    if low { less } else { wide }
}

// One number of the header is one more or less.
fn put_header(seed: &mut u64, plan: Plan, maximum: usize, text: &mut [u8]) -> Out {
    let wrong = plan.fault == HEADER;
    let which = if wrong { roll(seed, 4) } else { 4 };
    let change = if chance(seed, 2) { minus(0, 1) } else { 1 };
    let inputs = if which == 0 {
        plus(plan.inputs, change)
    } else {
        plan.inputs
    };
    let latches = if which == 1 {
        plus(plan.latches, change)
    } else {
        plan.latches
    };
    let outputs = if which == 2 {
        plus(plan.outputs, change)
    } else {
        plan.outputs
    };
    let gates = if which == 3 {
        plus(plan.gates, change)
    } else {
        plan.gates
    };
    let numbers = [maximum, inputs, latches, outputs, gates, 0];
    put_filled(
        &Nowhere,
        text,
        text::out::to(1),
        b"aag # # # # #\n",
        numbers,
    )
}

fn put_sections(
    seed: &mut u64,
    plan: Plan,
    names: &[u32],
    uses: &[u32],
    stranger: usize,
    text: &mut [u8],
    out: Out,
) -> Out {
    let given = put_inputs(plan, names, text, out);
    let held = put_latches(seed, plan, names, uses, stranger, text, given);
    let shown = put_outputs(plan, names, uses, stranger, text, held);
    put_gates(plan, names, uses, stranger, text, shown)
}

fn put_lines(seed: &mut u64, plan: Plan, names: &[u32], uses: &[u32], text: &mut [u8]) -> usize {
    let maximum = maximum_of(seed, plan, names);
    let stranger = stranger_of(seed, plan, names, maximum);
    let opened = put_header(seed, plan, maximum, text);
    let closed = put_sections(seed, plan, names, uses, stranger, text, opened);
    let all = put_rest(seed, text, closed);
    all.waiting
}

// A text by this plan; the answer is its length. The lists have room for a number for each row, and `uses` for two.
pub fn put_text(
    seed: &mut u64,
    plan: Plan,
    names: &mut [u32],
    order: &mut [u32],
    uses: &mut [u32],
    text: &mut [u8],
) -> usize {
    put_names(seed, plan, names);
    put_all_uses(seed, plan, order, uses);
    spoil_names(seed, plan, names);
    spoil_uses(seed, plan, uses);
    put_loop(seed, plan, uses);
    put_lines(seed, plan, names, uses, text)
}

// ---- plans

// What is wrong in a text, one time in three; more often than others a name twice or undefined.
fn any_fault(seed: &mut u64) -> usize {
    let any = roll(seed, 8);
    let name = roll_from(seed, TWICE, 2);
    let fault = if chance(seed, 3) { name } else { any };
    if chance(seed, 3) { fault } else { 0 }
}

// At most so many lines in each section.
pub fn any_plan(seed: &mut u64, most: usize) -> Plan {
    let fault = any_fault(seed);
    let outputs = roll_from(seed, 1, 4);
    Plan {
        inputs: roll(seed, most),
        latches: roll(seed, most),
        outputs: if fault == NO_OUTPUT { 0 } else { outputs },
        gates: roll(seed, plus(most, most)),
        step: roll(seed, 8),
        turned: chance(seed, 3),
        mixed: roll(seed, 3),
        order: roll(seed, 4),
        fault,
    }
}

// So many rows, most of them inputs, with a gate at least.
pub fn long_plan(seed: &mut u64, rows: usize, fault: usize) -> Plan {
    let outputs = roll_from(seed, 1, 8);
    let latches = roll(seed, 1000);
    let gates = roll_from(seed, 1, 1500);
    let others = plus(plus(1, outputs), plus(latches, gates));
    Plan {
        inputs: minus(rows, others),
        latches,
        outputs,
        gates,
        step: roll(seed, 8),
        turned: chance(seed, 3),
        mixed: roll(seed, 3),
        order: roll(seed, 4),
        fault,
    }
}

// ---- damage

// A byte that texts have, or nearly have.
fn any_byte(seed: &mut u64) -> u8 {
    let digit = b'0' + trial_pieces::dice::roll_u8(seed, 10) % 10;
    match roll(seed, 12) {
        0 | 1 => b' ',
        2 | 3 => b'\n',
        4 => b'\t',
        5 => b'\r',
        6 => trial_pieces::dice::roll_u8(seed, 256),
        7 => b'-',
        8 => b'0',
        _ => digit,
    }
}

// How many bytes there are from `at` on.
fn left_from(at: usize, size: usize) -> usize {
    size.saturating_sub(at)
}

// The bytes from `at` on move up by one.
fn move_up(text: &mut [u8], at: usize, size: usize) {
    let count = left_from(at, size);
    for i in 0..count {
        let to = minus(size, i);
        put(text, to, get(text, minus(to, 1)));
    }
}

// The bytes after `at` move down by one.
fn move_down(text: &mut [u8], at: usize, size: usize) {
    for i in at..size {
        put(text, i, get(text, plus(i, 1)));
    }
}

fn put_in(text: &mut [u8], at: usize, size: usize, byte: u8) -> usize {
    move_up(text, at, size);
    put(text, at, byte);
    plus(size, 1)
}

// One number more on the line.
fn lengthen(seed: &mut u64, text: &mut [u8], at: usize, size: usize) -> usize {
    let end = find(text, at.min(text.len()), b'\n').min(size);
    let digit = b'0' + trial_pieces::dice::roll_u8(seed, 3) % 3;
    let longer = put_in(text, end, size, digit);
    put_in(text, end, longer, b' ')
}

// One byte is changed, put in or taken away, a line has a number more, or the text is cut; the answer is its length.
pub fn damage(seed: &mut u64, text: &mut [u8], size: usize) -> usize {
    let at = roll(seed, size);
    let byte = any_byte(seed);
    match roll(seed, 8) {
        0 => at,
        1 | 2 => put_in(text, at, size, byte),
        3 | 4 => {
            move_down(text, at, size);
            minus(size, 1)
        }
        5 => lengthen(seed, text, at, size),
        _ => {
            put(text, at, byte);
            size
        }
    }
}
