// Files that are damaged: bits flipped, fields changed, blocks lost. Where the check word is mended, later questions are met.
use reference_rows::rows::{Row, put_row, row_at};
use reference_writing::writer::seal;
use trial_pieces::dice::{roll, roll_from, roll_u8, roll_u16};
use trial_pieces::pieces::{cells, plus};

fn flip(file: &mut [u8], at: usize, k: usize) {
    if at < file.len() {
        file[at] ^= 1u8 << k.min(7);
    }
}

fn block_of(row: usize) -> usize {
    row / 63
}

// A bit anywhere in the file.
fn flip_any(file: &mut [u8], seed: &mut u64, size: usize) {
    let at = roll(seed, size);
    flip(file, at, roll(seed, 8));
}

// The same with the check word mended.
fn flip_mended(file: &mut [u8], seed: &mut u64, size: usize) {
    let at = roll(seed, size);
    flip(file, at, roll(seed, 8));
    seal(file, at / 512);
}

// A bit of a row.
fn flip_row(file: &mut [u8], seed: &mut u64, row: usize) {
    let start = reference_rows::rows::start_of(row);
    let at = plus(start, roll(seed, 8));
    flip(file, at, roll(seed, 8));
    seal(file, block_of(row));
}

pub fn put_damaged(file: &mut [u8], at: usize, row: Row) {
    put_row(file, at, row);
    seal(file, block_of(at));
}

// A row of another kind.
fn change_kind(file: &mut [u8], seed: &mut u64, at: usize) {
    let row = row_at(file, at);
    let kind = roll_u8(seed, 9);
    put_damaged(file, at, Row { kind, ..row });
}

fn change_reset(file: &mut [u8], seed: &mut u64, at: usize) {
    let row = row_at(file, at);
    let reset = roll_u8(seed, 4);
    put_damaged(file, at, Row { reset, ..row });
}

// A field becomes another number, up to twice the rows and some more.
fn change_field(file: &mut [u8], seed: &mut u64, at: usize, rows: usize) {
    let row = row_at(file, at);
    let value = roll_u16(seed, 2 * (rows % 32768) + 4);
    let new = match roll(seed, 3) {
        0 => Row { a: value, ..row },
        1 => Row { b: value, ..row },
        _ => Row { c: value, ..row },
    };
    put_damaged(file, at, new);
}

// A row's fields become those of another row; so labels come twice.
fn copy_fields(file: &mut [u8], seed: &mut u64, at: usize, rows: usize) {
    let row = row_at(file, at);
    let from = row_at(file, roll(seed, rows));
    let new = match roll(seed, 3) {
        0 => from,
        1 => Row { a: from.a, ..row },
        _ => Row { b: from.b, ..row },
    };
    put_damaged(file, at, new);
}

// Another phase, in the field that is the phase of an input or of an output.
fn change_phase(file: &mut [u8], seed: &mut u64, at: usize) {
    let row = row_at(file, at);
    let phase = roll_u16(seed, 9);
    let new = if row.kind == 1 {
        Row { b: phase, ..row }
    } else {
        Row { c: phase, ..row }
    };
    put_damaged(file, at, new);
}

// One of the bytes of a block's head.
fn change_head(file: &mut [u8], seed: &mut u64, size: usize) {
    let block = roll(seed, size / 512) % 512;
    let at = plus(512 * block, roll(seed, 4));
    let value = roll_u8(seed, 70);
    text::bytes::put(file, at, value);
    seal(file, block);
}

// What is changed goes by a number; past 8 it is the last row.
fn change(file: &mut [u8], seed: &mut u64, size: usize, what: usize) {
    let rows = reference_rows::rows::rows_of(text::bytes::first(file, size));
    let at = roll(seed, rows);
    match what {
        0 => flip_any(file, seed, size),
        1 => flip_mended(file, seed, size),
        2 => flip_row(file, seed, at),
        3 => change_kind(file, seed, at),
        4 => change_reset(file, seed, at),
        5 => change_field(file, seed, at, rows),
        6 => copy_fields(file, seed, at, rows),
        7 => change_phase(file, seed, at),
        8 => change_head(file, seed, size),
        _ => change_last(file, seed, rows),
    }
}

// The last row becomes one of another kind, so that often no output is left.
fn change_last(file: &mut [u8], seed: &mut u64, rows: usize) {
    let last = rows.wrapping_sub(1);
    let input = cells(1, 0, trial_pieces::pieces::label_of(last), 0, 0);
    let kind = roll_u8(seed, 7);
    let other = cells(kind, 0, 0, 0, 0);
    let new = if kind < 4 { input } else { other };
    put_damaged(file, last, new);
}

// Another length: cut anywhere, or by a block, or a block longer.
fn change_size(seed: &mut u64, size: usize) -> usize {
    let cut = roll(seed, plus(size, 1));
    let shorter = size.wrapping_sub(512);
    let longer = plus(size, 512);
    match roll(seed, 4) {
        0 => shorter,
        1 => longer,
        _ => cut,
    }
}

// A damaged file's length; one time in twelve only the length is wrong.
pub fn damage(file: &mut [u8], seed: &mut u64, size: usize) -> usize {
    let what = roll_from(seed, 0, 12);
    if what > 10 {
        return change_size(seed, size);
    }
    change(file, seed, size, what);
    size
}
