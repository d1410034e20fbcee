// The three-valued run: a byte for each register and state, the first equal pair of states, generators and the phase count.
use reference_rows::bytes::{after, item, put_item};
use reference_rows::rows::{Row, kind_at, row_at};
use reference_rows::values::{gate_value, literal_value};

#[derive(Clone, Copy, Debug, PartialEq, Eq)]
pub struct Lasso {
    pub stem: usize,
    pub cycle: usize,
}

// Where register j of a state stands.
pub fn cell(state: usize, j: usize) -> usize {
    256 * (state % 257) + j % 256
}

// A register's row joins the list; the answer is how many are listed.
fn list_register(file: &[u8], row: usize, registers: &mut [u16], count: usize) -> usize {
    if kind_at(file, row) != 2 {
        return count;
    }
    put_item(registers, count, (row % 65536) as u16);
    after(count)
}

// The rows of the registers, in order; their number is the answer.
pub fn list_registers(file: &[u8], rows: usize, registers: &mut [u16]) -> usize {
    let mut count: usize = 0;
    for row in 0..rows {
        count = list_register(file, row, registers, count);
    }
    count
}

pub fn put_resets(file: &[u8], registers: &[u16], count: usize, states: &mut [u8]) {
    for j in 0..count {
        let row = row_at(file, item(registers, j).into());
        put_item(states, cell(0, j), row.reset);
    }
}

// ---- a step

fn load_state(registers: &[u16], count: usize, states: &[u8], state: usize, values: &mut [u8]) {
    for j in 0..count {
        let held = item(states, cell(state, j));
        put_item(values, item(registers, j).into(), held);
    }
}

// Constant, inputs and gates; a register keeps the value that it holds.
fn value_of(row: Row, at: usize, values: &[u8]) -> u8 {
    match row.kind {
        2 => item(values, at),
        1 => 2,
        _ => gate_value(values, row),
    }
}

fn put_values(file: &[u8], rows: usize, values: &mut [u8]) {
    for at in 0..rows {
        let value = value_of(row_at(file, at), at, values);
        put_item(values, at, value);
    }
}

fn store_state(
    file: &[u8],
    registers: &[u16],
    count: usize,
    values: &[u8],
    states: &mut [u8],
    state: usize,
) {
    for j in 0..count {
        let row = row_at(file, item(registers, j).into());
        put_item(states, cell(state, j), literal_value(values, row.a));
    }
}

// ---- the lasso

fn same_state(states: &[u8], first: usize, second: usize, count: usize) -> bool {
    (0..count).all(|j| item(states, cell(first, j)) == item(states, cell(second, j)))
}

// The first state before m that equals state m.
fn first_same(states: &[u8], m: usize, count: usize) -> Option<usize> {
    (0..m).find(|&n| same_state(states, n, m, count))
}

pub fn find_lasso(
    file: &[u8],
    rows: usize,
    registers: &[u16],
    count: usize,
    states: &mut [u8],
    values: &mut [u8],
) -> Option<Lasso> {
    put_resets(file, registers, count, states);
    for m in 1..257 {
        load_state(registers, count, states, m - 1, values);
        put_values(file, rows, values);
        store_state(file, registers, count, values, states, m);
        if let Some(stem) = first_same(states, m, count) {
            return Some(Lasso {
                stem,
                cycle: m.wrapping_sub(stem),
            });
        }
    }
    None
}

// ---- generators

fn rest_of(x: usize, y: usize) -> usize {
    if y == 0 { x } else { x % y }
}

pub fn divides(x: usize, y: usize) -> bool {
    x != 0 && y % x == 0
}

fn ever_unknown(states: &[u8], m: usize, j: usize) -> bool {
    (0..m).any(|t| item(states, cell(t, j)) == 2)
}

// Whether register j is at each t below m what it is at t mod p.
fn repeats(states: &[u8], m: usize, j: usize, p: usize) -> bool {
    (0..m).all(|t| item(states, cell(t, j)) == item(states, cell(rest_of(t, p), j)))
}

// The least length of a generator of register j, or 0 if it has none.
fn period_of(states: &[u8], lasso: Lasso, j: usize) -> u16 {
    let m = lasso.stem.wrapping_add(lasso.cycle);
    let end = after(lasso.cycle);
    if ever_unknown(states, m, j) {
        return 0;
    }
    for p in 1..end {
        if divides(p, lasso.cycle) && repeats(states, m, j, p) {
            return (p % 65536) as u16;
        }
    }
    0
}

pub fn put_periods(states: &[u8], lasso: Lasso, count: usize, periods: &mut [u16]) {
    for j in 0..count {
        put_item(periods, j, period_of(states, lasso, j));
    }
}

// How many registers have a period that divides n.
pub fn count_dividing(periods: &[u16], count: usize, n: usize) -> usize {
    (0..count)
        .filter(|&j| divides(item(periods, j).into(), n))
        .count()
}

fn commonest(periods: &[u16], count: usize) -> usize {
    let mut best = 1;
    let mut most = 0;
    for n in 1..9 {
        let dividing = count_dividing(periods, count, n);
        if dividing > most {
            most = dividing;
            best = n;
        }
    }
    best
}

pub fn phase_count(periods: &[u16], count: usize, wish: u32) -> usize {
    if wish == 0 {
        commonest(periods, count)
    } else {
        wish as usize
    }
}
