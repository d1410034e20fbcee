// The file that a fold leaves: rows at their places, heads and check words.
ghost use Rattle.std.specs.Prelude.{◌<◌};

use crate::made::made_row;
use reference_rows::bytes::{item, put_field, put_item};
use reference_rows::rows::{BLOCK_BOUND, ROW_BOUND, put_row};

// A row with no mark goes.
fn put_kept(made: &[u16], row: usize, marks: &[u16], res: &mut [u8]) {
    let mark: u16 = item(marks, row);
    if mark == 0 {
        return;
    }
    let new = crate::cone::moved(marks, made_row(made, row));
    put_row(res, usize::from(mark - 1), new);
}

fn put_rows(made: &[u16], rows: usize, marks: &[u16], res: &mut [u8]) {
    for row in 0..rows {
        put_kept(made, row, marks, res);
    }
}

// The sum of a block's bytes in one column of its words, but for the check.
fn column(file: &[u8], start: usize, k: usize) -> u32
    ensures { result < 65536 }
{
    let mut sum: u32 = 0;
    for i in 0..127 {
        let at = start.wrapping_add(4 * i).wrapping_add(k);
        sum = sum.wrapping_add(u32::from(item(file, at)));
    }
    sum % 65536
}

// The check word that makes the block's sum right: what is left to 2 to the 32, less 1.
pub fn seal(file: &mut [u8], block: usize) {
    let start = 512 * (block % BLOCK_BOUND);
    let low = column(file, start, 0) + 256 * column(file, start, 1);
    let high = column(file, start, 2) + 256 * column(file, start, 3);
    let sum = u64::from(low) + 65536 * u64::from(high);
    let check = 4294967295 - sum % 4294967296;
    put_field(file, start + 508, (check % 65536) as u16);
    put_field(file, start + 510, (check / 65536) as u16);
}

// The head of a block of a file that has `rows` rows.
fn put_head(file: &mut [u8], block: usize, rows: usize) {
    let start = 512 * (block % BLOCK_BOUND);
    let before = 63 * (block % BLOCK_BOUND);
    let left = rows.wrapping_sub(before);
    let [low, high] = ((block % 65536) as u16).to_le_bytes();
    put_item(file, start, if left <= 63 { 2 } else { 1 });
    put_item(file, start + 1, low);
    put_item(file, start + 2, left.min(63) as u8);
    put_item(file, start + 3, high);
}

// Heads and check words; the answer is the file's length.
pub fn close(file: &mut [u8], rows: usize) -> usize {
    let blocks = (rows % ROW_BOUND + 62) / 63;
    for block in 0..blocks {
        put_head(file, block, rows);
        seal(file, block);
    }
    512 * blocks
}

pub fn put_file(made: &[u16], rows: usize, marks: &[u16], kept: usize, res: &mut [u8]) {
    res.fill(0);
    put_rows(made, rows, marks, res);
    close(res, kept);
}
