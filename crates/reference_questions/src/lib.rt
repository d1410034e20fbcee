// Questions 1 to 10 of the scope paper; where gates may stand in any order, a gate names any node.
#![tactic(auto)]

use reference_rows::bytes::{after, field, item, put_item};
use reference_rows::rows::{BLOCK_BOUND, MOST_BYTES, Row, kind_at, node_of, row_at, rows_of};

// A refusal's number and place.
#[derive(Clone, Copy, Debug, PartialEq, Eq)]
pub struct Refusal {
    pub number: u32,
    pub place: u32,
}

pub fn said(number: u32, place: usize) -> Refusal {
    Refusal {
        number,
        place: (place % 65536) as u32,
    }
}

// ---- 1 to 5

fn length_right(file: &[u8]) -> bool {
    let size = file.len();
    size % 512 == 0 && size >= 512 && size <= MOST_BYTES
}

// The 32-bit word at a byte.
fn long(file: &[u8], at: usize) -> u64 {
    let low = field(file, at);
    let high = field(file, at.wrapping_add(2));
    65536 * u64::from(high) + u64::from(low)
}

// The sum of a block's 128 words, whole; carries are dropped at the end.
fn sum_of(file: &[u8], start: usize) -> u64 {
    let mut sum: u64 = 0;
    for i in 0..128 {
        sum = sum.wrapping_add(long(file, start.wrapping_add(4 * i)));
    }
    sum % 4294967296
}

// Bytes 1 and 3 together, the low one first, are the block's number.
fn head_right(file: &[u8], block: usize, last: bool) -> bool {
    let start = 512 * (block % BLOCK_BOUND);
    let mark: u8 = if last { 2 } else { 1 };
    let number = u16::from_le_bytes([item(file, start + 1), item(file, start + 3)]);
    item(file, start) == mark && usize::from(number) == block
}

fn count_right(count: u8, last: bool) -> bool {
    if last {
        (1..=63).contains(&count)
    } else {
        count == 63
    }
}

fn zero_between(file: &[u8], start: usize, end: usize) -> bool {
    (start..end).all(|at| item(file, at) == 0)
}

// The number of the block's first no.
fn block_no(file: &[u8], block: usize, last: bool) -> Option<u32> {
    let start = 512 * (block % BLOCK_BOUND);
    if sum_of(file, start) != 4294967295 {
        return Some(2);
    }
    if !head_right(file, block, last) {
        return Some(3);
    }
    let count: u8 = item(file, start + 2);
    if !count_right(count, last) {
        return Some(4);
    }
    let used = 8 * usize::from(count);
    if !zero_between(file, start + 4 + used, start + 508) {
        return Some(5);
    }
    None
}

fn ask_blocks(file: &[u8], blocks: usize) -> Result<(), Refusal> {
    for block in 0..blocks {
        if let Some(number) = block_no(file, block, after(block) == blocks) {
            return Err(said(number, block));
        }
    }
    Ok(())
}

// ---- 6 to 9

// Every earlier row has passed, so an output came before if the row just before is one.
fn kind_right(file: &[u8], at: usize, kind: u8) -> bool {
    if at == 0 {
        return kind == 0;
    }
    match kind {
        0 => false,
        6 => true,
        _ => kind < 6 && kind_at(file, at - 1) != 6,
    }
}

fn fields_right(row: Row) -> bool {
    match row.kind {
        2 => row.reset < 3 && row.c == 0,
        _ if row.reset != 0 => false,
        6 => row.c < 8,
        5 => true,
        3 | 4 => row.c == 0,
        1 => row.b < 8 && row.c == 0,
        _ => row.a == 0 && row.b == 0 && row.c == 0,
    }
}

// What tells a labelled row of a kind from the others of that kind; 0 for rows with no label.
fn key_of(row: Row) -> u32 {
    let a = u32::from(row.a);
    let b = u32::from(row.b);
    let c = u32::from(row.c);
    match row.kind {
        1 => 1000000 + 8 * a + b % 8,
        2 => 2000000 + 8 * b,
        6 => 3000000 + 8 * b + c % 8,
        _ => 0,
    }
}

fn key_new(keys: &[u32], at: usize, wanted: u32) -> bool {
    wanted == 0 || (0..at).all(|row| item(keys, row) != wanted)
}

// Whether the literal's row is there and is no output.
fn names_node(file: &[u8], rows: usize, literal: u16) -> bool {
    let node = node_of(literal);
    node < rows && kind_at(file, node) != 6
}

// Fields that are no operands of the gate are 0.
fn operands_right(file: &[u8], rows: usize, at: usize, row: Row, any_order: bool) -> bool {
    [row.a, row.b, row.c].iter().all(|&literal| {
        if any_order {
            names_node(file, rows, literal)
        } else {
            node_of(literal) < at
        }
    })
}

fn literals_right(file: &[u8], rows: usize, at: usize, row: Row, any_order: bool) -> bool {
    match row.kind {
        2 | 6 => names_node(file, rows, row.a),
        3 | 4 | 5 => operands_right(file, rows, at, row, any_order),
        _ => true,
    }
}

// The number of the row's first no.
fn row_no(file: &[u8], rows: usize, at: usize, keys: &[u32], any_order: bool) -> Option<u32> {
    let row = row_at(file, at);
    if !kind_right(file, at, row.kind) {
        return Some(6);
    }
    if !fields_right(row) {
        return Some(7);
    }
    if !key_new(keys, at, key_of(row)) {
        return Some(8);
    }
    if !literals_right(file, rows, at, row, any_order) {
        return Some(9);
    }
    None
}

fn ask_rows(file: &[u8], rows: usize, any_order: bool) -> Result<(), Refusal> {
    let mut keys = reference_rows::rooms::row_numbers();
    for at in 0..rows {
        if let Some(number) = row_no(file, rows, at, &keys, any_order) {
            return Err(said(number, at));
        }
        put_item(&mut keys, at, key_of(row_at(file, at)));
    }
    Ok(())
}

// ---- all

// Outputs come last, so there is one if the last row is one.
fn ends_in_output(file: &[u8], rows: usize) -> bool {
    kind_at(file, rows.wrapping_sub(1)) == 6
}

pub fn ask_file(file: &[u8], any_order: bool) -> Result<(), Refusal> {
    if !length_right(file) {
        return Err(said(1, 0));
    }
    ask_blocks(file, file.len() / 512)?;
    let rows = rows_of(file);
    ask_rows(file, rows, any_order)?;
    if !ends_in_output(file, rows) {
        return Err(said(10, 0));
    }
    Ok(())
}

pub fn check(file: &[u8]) -> Result<(), Refusal> {
    ask_file(file, false)
}
