// The lines of an ASCII AIGER text in a table of eight columns: how many numbers a line has, then up to five numbers; the
// last two columns are for others. Line 0 is the header.
#![tactic(auto)]

use reference_rows::bytes::{after, item, put_item};

// ---- the table

pub fn cell(table: &[u32], line: usize, column: usize) -> u32 {
    item(table, 8 * (line % 65536) + column % 8)
}

pub fn put_cell(table: &mut [u32], line: usize, column: usize, value: u32) {
    put_item(table, 8 * (line % 65536) + column % 8, value);
}

// How many lines it has room for.
fn room_of(table: &[u32]) -> usize {
    (table.len() / 8).min(65536)
}

// ---- words and lines

// Where the byte first stands from `from` on and before `end`, or `end`.
fn place_of(text: &[u8], wanted: u8, from: usize, end: usize) -> usize {
    (from..end)
        .find(|&at| item(text, at) == wanted)
        .unwrap_or(end)
}

fn all_digits(text: &[u8], from: usize, end: usize) -> bool {
    (from..end).all(|at| item(text, at).is_ascii_digit())
}

// What up to ten digits say.
fn value_of(text: &[u8], from: usize, end: usize) -> u64 {
    let mut value: u64 = 0;
    for at in from..end {
        value = 10 * (value % 1000000000000) + u64::from(item(text, at) % 16);
    }
    value
}

// Whether the bytes are a number as it is written: one to ten digits, the first 0 only where it stands alone.
fn word_right(text: &[u8], from: usize, end: usize) -> bool {
    let size = end.wrapping_sub(from);
    let sized = (1..=10).contains(&size);
    let plain = size == 1 || item(text, from) != b'0';
    sized && plain && all_digits(text, from, end) && value_of(text, from, end) <= 4294967295
}

// One to five numbers parted by single spaces, from `from` on and before `end`: whether they are, and then they stand in the table.
fn put_line(text: &[u8], from: usize, end: usize, table: &mut [u32], line: usize) -> bool {
    let mut start = from;
    for column in 1..6 {
        let stop = place_of(text, b' ', start, end);
        if !word_right(text, start, stop) {
            return false;
        }
        let value = (value_of(text, start, stop) % 4294967296) as u32;
        put_cell(table, line, column, value);
        put_cell(table, line, 0, (column % 8) as u32);
        if stop == end {
            return true;
        }
        start = after(stop);
    }
    false
}

// ---- the text

// Why a text's lines cannot be read: one is wrong or is not there, or the table has no room for so many.
#[derive(Clone, Copy, Debug, PartialEq, Eq)]
pub enum TextRefusal {
    Wrong,
    TooLong,
}

// How many line feeds there are.
fn feeds_in(text: &[u8]) -> usize {
    text.iter().filter(|&&byte| byte == b'\n').count()
}

// The lines 1 to `count`, the first of which starts at `from`.
fn put_lines(text: &[u8], from: usize, count: usize, table: &mut [u32]) -> bool {
    let size = text.len();
    let mut start = from;
    for line in 0..count {
        let end = place_of(text, b'\n', start, size);
        if end >= size {
            return false;
        }
        if !put_line(text, start, end, table, after(line)) {
            return false;
        }
        start = after(end);
    }
    true
}

// I, L, O and A together.
fn counted(table: &[u32]) -> usize {
    let sources = cell(table, 0, 2) as usize + cell(table, 0, 3) as usize;
    let others = cell(table, 0, 4) as usize + cell(table, 0, 5) as usize;
    sources + others
}

// The header's numbers; the answer is where its line ends, if it is a header.
fn put_header(text: &[u8], table: &mut [u32]) -> Option<usize> {
    let size = text.len();
    let end = place_of(text, b'\n', 4, size);
    let read = put_line(text, 4, end, table, 0);
    let right = text.starts_with(b"aag ") && read && cell(table, 0, 0) == 5;
    if right && end < size { Some(end) } else { None }
}

// The header and all lines that it counts, whatever their numbers say; the answer is how many. Fewer line feeds than lines are too few.
pub fn put_text(text: &[u8], table: &mut [u32]) -> Result<usize, TextRefusal> {
    let end = put_header(text, table).ok_or(TextRefusal::Wrong)?;
    let count = counted(table);
    if count >= feeds_in(text) {
        return Err(TextRefusal::Wrong);
    }
    if count >= room_of(table) {
        return Err(TextRefusal::TooLong);
    }
    if !put_lines(text, after(end), count, table) {
        return Err(TextRefusal::Wrong);
    }
    Ok(count)
}
