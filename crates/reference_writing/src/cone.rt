// The rows that an output reaches, found by recursion from the outputs, and their new numbers.
use crate::made::made_row;
use reference_rows::bytes::{after, item, put_item};
use reference_rows::rows::{Row, node_of};

// The nodes that a row names; 0, which always stays, where it names fewer than three.
#[derive(Clone, Copy)]
pub struct Named {
    pub first: usize,
    pub second: usize,
    pub third: usize,
}

pub fn named_by(row: Row) -> Named {
    let a = node_of(row.a);
    let b = node_of(row.b);
    let c = node_of(row.c);
    let (first, second, third) = match row.kind {
        0 | 1 => (0, 0, 0),
        2 | 6 => (a, 0, 0),
        5 => (a, b, c),
        _ => (a, b, 0),
    };
    Named {
        first,
        second,
        third,
    }
}

// Marks a row and all that it reaches. A path has no row twice, so as much depth as there are rows is enough.
fn reach(made: &[u16], marks: &mut [u16], row: usize, depth: usize) {
    if depth == 0 || item(marks, row) != 0 {
        return;
    }
    put_item(marks, row, 1);
    let named = named_by(made_row(made, row));
    reach(made, marks, named.first, depth - 1);
    reach(made, marks, named.second, depth - 1);
    reach(made, marks, named.third, depth - 1);
}

// From an output on; other rows reach nothing by themselves.
fn reach_from(made: &[u16], marks: &mut [u16], row: usize, rows: usize) {
    if made_row(made, row).kind == 6 {
        reach(made, marks, row, after(rows));
    }
}

fn reach_outputs(made: &[u16], rows: usize, marks: &mut [u16]) {
    put_item(marks, 0, 1);
    for row in 0..rows {
        reach_from(made, marks, row, rows);
    }
}

// A marked row gets its new number and 1 more; the answer is how many are marked up to here.
fn number_row(marks: &mut [u16], row: usize, before: usize) -> usize {
    if item(marks, row) == 0 {
        return before;
    }
    let count = after(before);
    put_item(marks, row, (count % 65536) as u16);
    count
}

fn number_rows(rows: usize, marks: &mut [u16]) -> usize {
    let mut count = 0;
    for row in 0..rows {
        count = number_row(marks, row, count);
    }
    count
}

pub fn find_cone(made: &[u16], rows: usize, marks: &mut [u16]) -> usize {
    reach_outputs(made, rows, marks);
    number_rows(rows, marks)
}

fn renumbered(marks: &[u16], literal: u16) -> u16 {
    let mark = item(marks, node_of(literal)) % 32768;
    2 * (mark.wrapping_sub(1) % 32768) + literal % 2
}

fn first_renumbered(marks: &[u16], row: Row) -> Row {
    Row {
        a: renumbered(marks, row.a),
        ..row
    }
}

fn all_renumbered(marks: &[u16], row: Row, third: bool) -> Row {
    Row {
        kind: row.kind,
        reset: 0,
        a: renumbered(marks, row.a),
        b: renumbered(marks, row.b),
        c: if third { renumbered(marks, row.c) } else { 0 },
    }
}

// A row with its literals renumbered.
pub fn moved(marks: &[u16], row: Row) -> Row {
    match row.kind {
        2 | 6 => first_renumbered(marks, row),
        3 | 4 => all_renumbered(marks, row, false),
        5 => all_renumbered(marks, row, true),
        _ => row,
    }
}
