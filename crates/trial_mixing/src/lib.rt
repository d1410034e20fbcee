// Netlists whose nodes stand in any order, made of those that stand in order.
#![tactic(auto)]

use reference_rows::bytes::{item, put_item};
use reference_rows::rows::{Row, count_kind, row_at, rows_of};
use trial_pieces::dice::{any_literal, chance, roll, roll_from};
use trial_pieces::pieces::{cells, plus};
use trial_tally::rooms;

// A row that changes places with this one: a node after the constant, one time in `rarely`, and else the row itself.
fn partner(seed: &mut u64, nodes: usize, at: usize, rarely: usize) -> usize {
    let any = roll_from(seed, 1, at);
    let moved = chance(seed, rarely);
    if at == 0 || at >= nodes {
        return at;
    }
    if moved { any } else { at }
}

// The new number of each row and 1 more.
fn mix(seed: &mut u64, nodes: usize, rows: usize, rarely: usize, numbers: &mut [u16]) {
    for at in 0..rows {
        let other = partner(seed, nodes, at, rarely);
        let number = (plus(at, 1) % 65536) as u16;
        put_item(numbers, at, item(numbers, other));
        put_item(numbers, other, number);
    }
}

// A gate's operand becomes any literal; other rows stay.
fn redraw(file: &mut [u8], seed: &mut u64, nodes: usize) {
    let at = roll(seed, nodes);
    let row = row_at(file, at);
    let literal = any_literal(seed, nodes);
    let new = match roll(seed, 3) {
        0 => Row {
            a: literal,
            reset: 0,
            ..row
        },
        1 => Row {
            b: literal,
            reset: 0,
            ..row
        },
        _ => cells(5, 0, row.a, row.b, literal),
    };
    if row.kind < 3 {
        return;
    }
    trial_netlists::damage::put_damaged(file, at, new);
}

fn redraw_some(file: &mut [u8], seed: &mut u64, nodes: usize, count: usize) {
    for _ in 0..count {
        redraw(file, seed, nodes);
    }
}

fn nodes_in(file: &[u8]) -> usize {
    let rows = rows_of(file);
    rows.wrapping_sub(count_kind(file, rows, 6))
}

// All nodes of the file change places, or a few.
pub fn put_shuffled(file: &[u8], seed: &mut u64, mixed: &mut [u8]) {
    let mut numbers = rooms::words();
    let rows = rows_of(file);
    let rarely = if chance(seed, 4) { 16 } else { 1 };
    mix(seed, nodes_in(file), rows, rarely, &mut numbers);
    reference_import::sorting::put_moved(file, rows, &numbers, mixed);
    reference_writing::writer::close(mixed, rows);
}

// The same, and some operands are drawn again, so that there may be loops.
pub fn put_mixed(file: &[u8], seed: &mut u64, mixed: &mut [u8]) {
    put_shuffled(file, seed, mixed);
    let count = roll(seed, 8);
    redraw_some(mixed, seed, nodes_in(file), count);
}
