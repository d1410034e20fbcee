// The lines that try Check, Count and Show.
use crate::tell::{Seen, Tally, seen_of};
use blockfile::count::Counts;
use scripted_files::bytes::{field_at, one_if, size_at};
use text::bytes::{first, get, put, rest};
use text::streams::Streams;

// Check SIZE is NUMBER PLACE
fn try_check(rt: &impl Streams, tally: Tally, numbers: &[u32], file: &[u8]) -> Tally {
    let size = size_at(numbers, 1);
    let expected = Seen(get(numbers, 3), get(numbers, 4));
    let value = seen_of(accept::accept(first(file, size)));
    crate::tell::outcome(rt, tally, value, expected, true)
}

// How many of the lengths up to `longest` are accepted.
fn count_accepted(file: &[u8], longest: u16) -> u32 {
    let mut accepted: u32 = 0;
    for size in 1..=longest {
        let answer = accept::accept(first(file, size.into()));
        accepted = accepted.wrapping_add(one_if(answer.is_ok()));
    }
    accepted
}

// Lengths LONGEST is COUNT
fn try_lengths(rt: &impl Streams, tally: Tally, numbers: &[u32], file: &[u8]) -> Tally {
    let longest = field_at(numbers, 1);
    let accepted = count_accepted(file, longest);
    crate::tell::number(rt, tally, accepted, get(numbers, 3))
}

// 1 if the first `blocks` blocks are refused with 3 at the last of them.
fn cut_refused(file: &[u8], blocks: u16) -> u32 {
    let answer = accept::accept(first(file, 512 * usize::from(blocks)));
    let last = blocks.wrapping_sub(1);
    one_if(seen_of(answer) == Seen(3, last.into()))
}

fn count_cuts(file: &[u8], most: u16) -> u32 {
    let mut refused: u32 = 0;
    for blocks in 1..=most {
        refused = refused.wrapping_add(cut_refused(file, blocks));
    }
    refused
}

// Blocks MOST is COUNT
fn try_blocks(rt: &impl Streams, tally: Tally, numbers: &[u32], file: &[u8]) -> Tally {
    let most = field_at(numbers, 1);
    let refused = count_cuts(file, most);
    crate::tell::number(rt, tally, refused, get(numbers, 3))
}

// One bit of the first block changes: bit i mod 8 of byte i / 8.
fn flip(file: &mut [u8], i: u16) {
    let at = usize::from(i / 8);
    put(file, at, get(file, at) ^ (1u8 << (i % 8)));
}

// 1 if the first block with that bit changed is refused with 2 at block 0.
fn flip_refused(file: &mut [u8], i: u16) -> u32 {
    flip(file, i);
    let answer = accept::accept(first(file, 512));
    flip(file, i);
    one_if(seen_of(answer) == Seen(2, 0))
}

fn count_refused(file: &mut [u8]) -> u32 {
    let mut refused: u32 = 0;
    for i in 0..4096 {
        refused = refused.wrapping_add(flip_refused(file, i));
    }
    refused
}

// Flips 512 is COUNT
fn try_flips(rt: &impl Streams, tally: Tally, numbers: &[u32], file: &mut [u8]) -> Tally {
    let refused = count_refused(file);
    crate::tell::number(rt, tally, refused, get(numbers, 3))
}

// The word of 32 bits at `at`.
fn word_at(file: &[u8], at: usize) -> u32 {
    if at < file.len() && 4 <= file.len() - at {
        memory::read_u32(file, at)
    } else {
        0
    }
}

// Word AT is VALUE
fn try_word(rt: &impl Streams, tally: Tally, numbers: &[u32], file: &[u8]) -> Tally {
    let word = word_at(file, size_at(numbers, 1));
    crate::tell::number(rt, tally, word, get(numbers, 3))
}

// ---- Count

fn print_counts(rt: &impl Streams, counts: Counts) {
    crate::tell::print_number(rt, counts.nodes as u64);
    crate::tell::print_number(rt, counts.inputs as u64);
    crate::tell::print_number(rt, counts.registers as u64);
    crate::tell::print_number(rt, counts.unknown as u64);
    crate::tell::print_number(rt, counts.outputs as u64);
}

fn counts_right(counts: Counts, numbers: &[u32]) -> bool {
    counts.nodes == size_at(numbers, 3)
        && counts.inputs == size_at(numbers, 4)
        && counts.registers == size_at(numbers, 5)
        && counts.unknown == size_at(numbers, 6)
        && counts.outputs == size_at(numbers, 7)
}

// Numbers SIZE is NODES INPUTS REGISTERS UNKNOWN OUTPUTS, of a file that Count accepts
fn try_counts(rt: &impl Streams, tally: Tally, numbers: &[u32], file: &[u8]) -> Tally {
    let size = size_at(numbers, 1);
    match count::count(first(file, size)) {
        Ok(counts) => {
            print_counts(rt, counts);
            crate::tell::judged(rt, tally, counts_right(counts, numbers))
        }
        Err(_) => crate::tell::judged(rt, tally, false),
    }
}

// Uncounted SIZE is NUMBER PLACE, of a file that Count refuses
fn try_uncounted(rt: &impl Streams, tally: Tally, numbers: &[u32], file: &[u8]) -> Tally {
    let size = size_at(numbers, 1);
    let expected = Seen(get(numbers, 3), get(numbers, 4));
    match count::count(first(file, size)) {
        Ok(_) => crate::tell::judged(rt, tally, false),
        Err(refusal) => crate::tell::outcome(rt, tally, Seen::from(refusal), expected, true),
    }
}

// ---- Show

// The block's 504 bytes on success, no byte after a refusal.
fn part_right(file: &[u8], block: u32, shown: &[u8], number: u32) -> bool {
    let start = 512 * block as usize + 4;
    let size = if number == 0 { 504 } else { 0 };
    shown == first(rest(file, start), size)
}

// Show SIZE BLOCK is NUMBER PLACE; number and place hold something else before.
fn try_show(rt: &impl Streams, tally: Tally, numbers: &[u32], file: &[u8]) -> Tally {
    let netlist = first(file, size_at(numbers, 1));
    let block = get(numbers, 2);
    let expected = Seen(get(numbers, 4), get(numbers, 5));
    let mut number: u32 = 77;
    let mut place: u32 = 77;
    let shown = show::show(netlist, block, &mut number, &mut place);
    let right = part_right(file, block, shown, number);
    crate::tell::outcome(rt, tally, Seen(number, place), expected, right)
}

pub fn obey(
    rt: &impl Streams,
    letter: u8,
    numbers: &[u32],
    file: &mut [u8],
    tally: Tally,
) -> Tally {
    match letter {
        b'C' => try_check(rt, tally, numbers, file),
        b'L' => try_lengths(rt, tally, numbers, file),
        b'B' => try_blocks(rt, tally, numbers, file),
        b'F' => try_flips(rt, tally, numbers, file),
        b'W' => try_word(rt, tally, numbers, file),
        b'N' => try_counts(rt, tally, numbers, file),
        b'U' => try_uncounted(rt, tally, numbers, file),
        b'S' => try_show(rt, tally, numbers, file),
        _ => tally,
    }
}
