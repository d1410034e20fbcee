// Netlist files built byte by byte: rows, heads, and check words by a sum of its own.
ghost use Rattle.std.specs.Prelude.{◌<◌};

use crate::bytes::{byte_at, field_at, size_at};
use text::bytes::{get, put};

const LAST: u8 = 2;

const NOT_LAST: u8 = 1;

// A row's kind, reset, a, b and c.
#[derive(Clone, Copy)]
struct Cells(u8, u8, u16, u16, u16);

// The byte at which a row starts.
fn row_start(row: u16) -> u32
    ensures { result < 1048576 }
{
    let index = u32::from(row);
    512 * (index / 63) + 4 + 8 * (index % 63)
}

// The field of two bytes at `at`.
fn put_field(file: &mut [u8], at: u32, value: u16) {
    let [low, high] = value.to_le_bytes();
    let first = at as usize;
    put(file, first, low);
    put(file, first + 1, high);
}

fn put_row(file: &mut [u8], row: u16, cells: Cells) {
    let start = row_start(row);
    let kind_at = start as usize;
    put(file, kind_at, cells.0);
    put(file, kind_at + 1, cells.1);
    put_field(file, start + 2, cells.2);
    put_field(file, start + 4, cells.3);
    put_field(file, start + 6, cells.4);
}

// A byte's share of the sum of words: byte `i` of a block stands in column i mod 4.
fn share_of(byte: u8, i: usize) -> u32 {
    let value = u32::from(byte);
    match i % 4 {
        0 => value,
        1 => 256 * value,
        2 => 65536 * value,
        _ => 16777216 * value,
    }
}

// The sum of the words before a block's check word.
fn sum_before_check(file: &[u8], block: u16) -> u32 {
    let start = 512 * usize::from(block);
    let mut sum: u32 = 0;
    for i in 0..508 {
        sum = sum.wrapping_add(share_of(get(file, start + i), i));
    }
    sum
}

// The check word that makes a block's sum right.
fn check_word(file: &[u8], block: u16) -> u32 {
    !sum_before_check(file, block)
}

fn seal_block(file: &mut [u8], block: u16) {
    let check = check_word(file, block);
    let at = 512 * u32::from(block) + 508;
    put_field(file, at, (check % 65536) as u16);
    put_field(file, at + 2, (check / 65536) as u16);
}

// The check words of the first `count` blocks.
fn seal(file: &mut [u8], count: u16) {
    for block in 0..count {
        seal_block(file, block);
    }
}

// The block's number has its low byte in byte 1 and its high byte in byte 3.
fn put_head(file: &mut [u8], block: u16, mark: u8, count: u8) {
    let start = 512 * usize::from(block);
    let [low, high] = block.to_le_bytes();
    put(file, start, mark);
    put(file, start + 1, low);
    put(file, start + 2, count);
    put(file, start + 3, high);
}

// Row `row` of a long netlist: by turns input, register, AND and XOR.
fn mixed_cells(row: u16) -> Cells {
    let literal = row.wrapping_add(row);
    let before = literal.wrapping_sub(2);
    match row % 4 {
        0 => Cells(4, 0, before, 1, 0),
        1 => Cells(1, 0, row, 7, 0),
        2 => Cells(2, 2, literal, row, 0),
        _ => Cells(3, 0, before, before, 0),
    }
}

// A gate of a chain: the inverse of `node` and the input, row 1.
fn chain_cells(row: u16, node: u16) -> Cells {
    let literal = node.wrapping_add(node);
    let inverse = literal.wrapping_add(1);
    if row == 1 {
        Cells(1, 0, 5, 6, 0)
    } else {
        Cells(3, 0, inverse, 2, 0)
    }
}

// The row of that long netlist which the letter says; of a turned chain the last gate, in row `rows` - 1, is the first.
fn long_cells(letter: u8, row: u16, rows: u16) -> Cells {
    let before = row.wrapping_sub(1);
    let behind = row.wrapping_add(1);
    let next = if behind == rows { 1 } else { behind };
    if row == 0 {
        return Cells(0, 0, 0, 0, 0);
    }
    match letter {
        b'l' => mixed_cells(row),
        b'f' => chain_cells(row, before),
        _ => chain_cells(row, next),
    }
}

// Nodes up to row `rows`, which is an output of the last of them, or of a turned chain of the first gate.
fn put_long_rows(file: &mut [u8], letter: u8, rows: u16) {
    for row in 0..rows {
        put_row(file, row, long_cells(letter, row, rows));
    }
    let last = rows.wrapping_sub(1);
    let shown = if letter == b't' { 2 } else { last };
    let literal = shown.wrapping_add(shown);
    put_row(file, rows, Cells(6, 0, literal, 65535, 7));
}

// Heads of the blocks before the last.
fn put_heads(file: &mut [u8], last: u16) {
    for block in 0..last {
        put_head(file, block, NOT_LAST, 63);
    }
}

// A netlist whose last block is number `last`, with `count` rows in it.
fn put_long(file: &mut [u8], letter: u8, last: u16, count: u8) {
    let full = 63 * (last % 1024);
    let rows = full + u16::from(count);
    let last_row = rows.wrapping_sub(1);
    let blocks = last.wrapping_add(1);
    put_long_rows(file, letter, last_row);
    put_heads(file, last);
    put_head(file, last, LAST, count);
    seal(file, blocks);
}

// The row that a line has: row R is KIND RESET A B C.
fn put_line_row(file: &mut [u8], numbers: &[u32]) {
    let kind = byte_at(numbers, 3);
    let reset = byte_at(numbers, 4);
    let a = field_at(numbers, 5);
    let b = field_at(numbers, 6);
    let c = field_at(numbers, 7);
    let row = field_at(numbers, 1);
    put_row(file, row, Cells(kind, reset, a, b, c));
}

// Head and check word of the only block.
fn close(file: &mut [u8], count: u8) {
    put_head(file, 0, LAST, count);
    seal_block(file, 0);
}

// Two blocks change places.
fn exchange(file: &mut [u8], x: u16, y: u16) {
    let from = 512 * usize::from(x);
    let to = 512 * usize::from(y);
    for i in 0..512 {
        let first = get(file, from + i);
        let second = get(file, to + i);
        put(file, from + i, second);
        put(file, to + i, first);
    }
}

// The lines that build a file.
pub fn obey(letter: u8, numbers: &[u32], file: &mut [u8], kept: &mut [u8]) {
    match letter {
        b'n' => crate::bytes::copy(file, b""),
        b'r' => put_line_row(file, numbers),
        b'b' => put(file, size_at(numbers, 1), byte_at(numbers, 3)),
        b'c' => close(file, byte_at(numbers, 1)),
        b's' => seal(file, field_at(numbers, 1)),
        b'l' | b'f' | b't' => put_long(file, letter, field_at(numbers, 1), byte_at(numbers, 2)),
        b'e' => exchange(file, field_at(numbers, 1), field_at(numbers, 2)),
        b'k' => crate::bytes::copy(kept, file),
        b'a' => crate::bytes::copy(file, kept),
        _ => {}
    }
}
