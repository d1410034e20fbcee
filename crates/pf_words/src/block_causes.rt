// What is wrong with a block: refusals 2 to 5.
use crate::outcome::say;
use listing::rows::last_block;
use text::bytes::{first, get, least, rest, wide};
use text::out::{three, two};
use text::streams::Streams;

// The block's bytes.
fn block_at(file: &[u8], block: usize) -> &[u8] {
    first(rest(file, 512 * least(block, 512)), 512)
}

// The sum of the block's words; 0 if it is not whole.
fn sum_of(block: &[u8]) -> usize {
    if block.len() < 512 {
        return 0;
    }
    blocks::writer::word_sum(block, 128) as usize
}

// Whether a netlist file may begin with these bytes: mark, number and sum of the first block are right.
pub fn is_first_block(bytes: &[u8]) -> bool {
    matches!(get(bytes, 0), 1 | 2)
        && get(bytes, 1) == 0
        && get(bytes, 3) == 0
        && sum_of(bytes) == 4294967295
}

// 2
fn say_sum(rt: &impl Streams, block: &[u8], number: usize) {
    let sum = sum_of(block);
    say(
        rt,
        b"block #: its 128 words sum to #, and should sum to 4294967295",
        two(number, sum),
    );
}

// Byte 0 of this block, as it should be.
fn mark_of(file: &[u8], number: usize) -> usize {
    if number == last_block(file) { 2 } else { 1 }
}

// 3
fn say_head(rt: &impl Streams, block: &[u8], number: usize, mark: usize) {
    let first = wide(get(block, 0));
    let low = wide(get(block, 1));
    let high = wide(get(block, 3));
    say(
        rt,
        b"block #: bytes 0, 1 and 3 are #, # and #",
        [number, first, low, high, 0, 0],
    );
    say(
        rt,
        b", and should be #, # and #",
        three(mark, number % 256, number / 256 % 256),
    );
}

// 4
fn say_row_count(rt: &impl Streams, block: &[u8], number: usize, mark: usize) {
    let seen = two(number, wide(get(block, 2)));
    if mark == 2 {
        say(
            rt,
            b"block #: its row count is #, and the last block's is 1 to 63",
            seen,
        );
    } else {
        say(
            rt,
            b"block #: its row count is #, and is 63 in every block but the last",
            seen,
        );
    }
}

// The first byte of the unused places that is not 0.
fn first_used(block: &[u8]) -> usize {
    let start = 4 + 8 * wide(get(block, 2));
    for at in start..block.len() {
        if block[at] != 0 {
            return at;
        }
    }
    start.max(block.len())
}

// 5
fn say_unused(rt: &impl Streams, block: &[u8], number: usize) {
    let at = first_used(block);
    let byte = wide(get(block, at));
    let rows = wide(get(block, 2));
    say(
        rt,
        b"block #: byte # is #, and should be 0: the block's row count is #",
        [number, at, byte, rows, 0, 0],
    );
}

// The sentence of a refusal of this number at a block.
pub fn say_block_cause(rt: &impl Streams, file: &[u8], number: u32, place: usize) {
    let block = block_at(file, place);
    let mark = mark_of(file, place);
    match number {
        2 => say_sum(rt, block, place),
        3 => say_head(rt, block, place, mark),
        4 => say_row_count(rt, block, place, mark),
        _ => say_unused(rt, block, place),
    }
}
