// Rows of a file as values, read from their places in the blocks and put there.
use crate::bytes::{field, item, put_field, put_item};

// What a file may have.
pub const MOST_BYTES: usize = 262144;

pub const MOST_ROWS: usize = 32256;

// Numbers are taken modulo these where an offset has to stay small. Files that are a block too long are made too, to be refused.
pub const BLOCK_BOUND: usize = 514;

const BYTE_BOUND: usize = 263168;

pub const ROW_BOUND: usize = 32382;

#[derive(Clone, Copy, Debug, PartialEq, Eq)]
pub struct Row {
    pub kind: u8,
    pub reset: u8,
    pub a: u16,
    pub b: u16,
    pub c: u16,
}

// The byte at which a row starts: 4 bytes of head and 4 of check stand between two blocks' rows.
pub fn start_of(row: usize) -> usize {
    let index = row % ROW_BOUND;
    let blocks_before = index / 63;
    8 * (index + blocks_before) + 4
}

pub fn kind_at(file: &[u8], row: usize) -> u8 {
    item(file, start_of(row))
}

pub fn row_at(file: &[u8], row: usize) -> Row {
    let from = start_of(row) % BYTE_BOUND;
    Row {
        kind: item(file, from),
        reset: item(file, from + 1),
        a: field(file, from + 2),
        b: field(file, from + 4),
        c: field(file, from + 6),
    }
}

pub fn put_row(file: &mut [u8], at: usize, row: Row) {
    let from = start_of(at) % BYTE_BOUND;
    put_item(file, from, row.kind);
    put_item(file, from + 1, row.reset);
    put_field(file, from + 2, row.a);
    put_field(file, from + 4, row.b);
    put_field(file, from + 6, row.c);
}

// How many rows a file of right blocks has.
pub fn rows_of(file: &[u8]) -> usize {
    let before = (file.len() / 512).wrapping_sub(1) % BLOCK_BOUND;
    63 * before + usize::from(item(file, 512 * before + 2))
}

// The bytes of a file of so many rows.
pub fn length_of(rows: u32) -> usize {
    let blocks = (rows % 65536 + 62) / 63;
    512 * blocks as usize
}

// The work that Run and Sort are lent for so many rows.
pub fn work_for(rows: usize) -> usize {
    if rows > 8064 { 65536 } else { 16384 }
}

pub fn node_of(literal: u16) -> usize {
    usize::from(literal / 2)
}

// How many of the first rows have this kind.
pub fn count_kind(file: &[u8], rows: usize, kind: u8) -> usize {
    (0..rows).filter(|&row| kind_at(file, row) == kind).count()
}
