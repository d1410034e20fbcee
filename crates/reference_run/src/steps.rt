// The two-valued run of a file whose gates stand in any order, without a loop.
use reference_rows::bytes::{after, item, put_item};
use reference_rows::rows::{Row, row_at};
use reference_rows::values::{gate_value, literal_value};
use reference_writing::cone::named_by;

// Whether the row is a register that starts unknown.
pub fn chosen(row: Row) -> bool {
    row.kind == 2 && row.reset == 2
}

// What every register holds at step 0: its reset, or the next choice.
fn start(file: &[u8], rows: usize, choices: &[u8], held: &mut [u8]) {
    let mut choices = choices.iter();
    for at in 0..rows {
        let row = row_at(file, at);
        let value = if chosen(row) {
            choices.next().copied().unwrap_or(0)
        } else {
            row.reset
        };
        put_item(held, at, value);
    }
}

// A value that is not worked out yet.
const OPEN: u8 = 2;

// An input's value is the next of the list, a register's what it holds; gates and outputs are open.
fn value_before(row: Row, input: u8, held: u8) -> u8 {
    match row.kind {
        0 => 0,
        1 => input,
        2 => held,
        _ => OPEN,
    }
}

// The values that are there before a step; the answer is the place of the next input value.
fn load(
    file: &[u8],
    rows: usize,
    inputs: &[u8],
    from: usize,
    held: &[u8],
    values: &mut [u8],
) -> usize {
    let mut next = from;
    for at in 0..rows {
        let row = row_at(file, at);
        let value = value_before(row, item(inputs, next), item(held, at));
        put_item(values, at, value);
        if row.kind == 1 {
            next = after(next);
        }
    }
    next
}

// Works out a row's value, and before it those of the rows that it names. A path has no row twice, so as much depth as there are rows is enough.
fn settle(file: &[u8], values: &mut [u8], at: usize, depth: usize) {
    if depth == 0 || item(values, at) != OPEN {
        return;
    }
    let row = row_at(file, at);
    let named = named_by(row);
    settle(file, values, named.first, depth - 1);
    settle(file, values, named.second, depth - 1);
    settle(file, values, named.third, depth - 1);
    put_item(values, at, gate_value(values, row));
}

fn settle_all(file: &[u8], rows: usize, values: &mut [u8]) {
    for at in 0..rows {
        settle(file, values, at, rows);
    }
}

// The values of all rows at a step; the answer is the place of the next input value.
fn evaluate(
    file: &[u8],
    rows: usize,
    inputs: &[u8],
    from: usize,
    held: &[u8],
    values: &mut [u8],
) -> usize {
    let next = load(file, rows, inputs, from, held, values);
    settle_all(file, rows, values);
    next
}

fn show_row(row: Row, value: u8, shown: &mut [u8], place: usize) -> usize {
    if row.kind != 6 {
        return place;
    }
    put_item(shown, place, value);
    after(place)
}

// The values of the outputs; the answer is the place after them.
fn show(file: &[u8], rows: usize, values: &[u8], shown: &mut [u8], from: usize) -> usize {
    let mut next = from;
    for at in 0..rows {
        let row = row_at(file, at);
        next = show_row(row, item(values, at), shown, next);
    }
    next
}

fn advance(file: &[u8], rows: usize, values: &[u8], held: &mut [u8]) {
    for at in 0..rows {
        let row = row_at(file, at);
        let next = if row.kind == 2 {
            literal_value(values, row.a)
        } else {
            0
        };
        put_item(held, at, next);
    }
}

fn run_steps(
    file: &[u8],
    steps: usize,
    choices: &[u8],
    inputs: &[u8],
    shown: &mut [u8],
    held: &mut [u8],
    values: &mut [u8],
) {
    let rows = reference_rows::rows::rows_of(file);
    let mut read = 0;
    let mut written = 0;
    start(file, rows, choices, held);
    for _ in 0..steps {
        read = evaluate(file, rows, inputs, read, held, values);
        written = show(file, rows, values, shown, written);
        advance(file, rows, values, held);
    }
}

pub fn run(file: &[u8], steps: usize, choices: &[u8], inputs: &[u8], shown: &mut [u8]) {
    let mut held = reference_rows::rooms::row_bytes();
    let mut values = reference_rows::rooms::row_bytes();
    run_steps(file, steps, choices, inputs, shown, &mut held, &mut values);
}
