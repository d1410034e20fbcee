// Check, Count, Show, and the rows as text.
use c_answers::{PfCounts, PfRefusal};
use listing::rows::{put_rows, row_count};
use pf_causes::{count_refusal, number_of, refuse, unordered_refusal};
use pf_words::outcome::{Outcome, done_with, finish};
use text::out::{none, put_byte, put_hex, to};
use text::streams::{OUTPUT, Streams};

// ---- Check

// Whether the file is accepted.
pub fn check(rt: &impl Streams, path: &[u8], file: &[u8]) -> Outcome {
    let refusal = phasefold::c_check::pf_check(file);
    if refusal.number == 0 {
        done_with(rt, b"accepted\n", none())
    } else {
        Err(refuse(rt, path, 0, file, refusal, b""))
    }
}

// ---- Count

// The lines of all counts.
fn tell_counts(rt: &impl Streams, counts: PfCounts) -> Outcome {
    let nodes = counts.nodes as usize;
    let inputs = counts.inputs as usize;
    let registers = counts.registers as usize;
    let unknown = counts.unknown as usize;
    let outputs = counts.outputs as usize;
    done_with(
        rt,
        b"nodes #\ninputs #\nregisters #\nX registers #\noutputs #\n",
        [nodes, inputs, registers, unknown, outputs, 0],
    )
}

// How many rows of each sort the file has.
pub fn count(rt: &impl Streams, path: &[u8], file: &[u8]) -> Outcome {
    let counts = phasefold::c_count::pf_count(file);
    if counts.number == 0 {
        tell_counts(rt, counts)
    } else {
        Err(refuse(rt, path, 0, file, count_refusal(counts), b""))
    }
}

// ---- Show

// What follows byte `i` of a part: a line has eight bytes, as a row has.
fn separator(i: usize) -> u8 {
    if i % 8 == 7 { b'\n' } else { b' ' }
}

// The bytes of a part, in hexadecimal digits.
fn put_part(rt: &impl Streams, buffer: &mut [u8], part: &[u8]) -> Outcome {
    let mut out = to(OUTPUT);
    for (i, byte) in part.iter().enumerate() {
        out = put_hex(rt, buffer, out, *byte);
        out = put_byte(rt, buffer, out, separator(i));
    }
    finish(rt, buffer, out)
}

// The part's lines.
fn tell_part(rt: &impl Streams, part: &[u8]) -> Outcome {
    let mut room = text::rooms::buffer();
    put_part(rt, &mut room, part)
}

// The row part of a block, or the refusal.
fn show_block(rt: &impl Streams, path: &[u8], file: &[u8], block: u32, word: &[u8]) -> Outcome {
    let mut number: u32 = 0;
    let mut place: u32 = 0;
    let part = phasefold::show(file, block, &mut number, &mut place);
    if number == 0 {
        tell_part(rt, part)
    } else {
        let refusal = PfRefusal { number, place };
        Err(refuse(rt, path, 0, file, refusal, word))
    }
}

// The block is the number that the word has.
pub fn show(rt: &impl Streams, path: &[u8], file: &[u8], word: &[u8]) -> Outcome {
    let block = number_of(rt, b"the block ", word, b" is not a number\n")?;
    show_block(rt, path, file, block, word)
}

// ---- rows as text

// The lines of all rows.
fn tell_rows(rt: &impl Streams, file: &[u8]) -> Outcome {
    let mut room = text::rooms::large_buffer();
    let out = put_rows(rt, &mut room, to(OUTPUT), file, row_count(file));
    finish(rt, &room, out)
}

// All rows of an accepted file, whose gates may stand in any order.
pub fn rows(rt: &impl Streams, path: &[u8], file: &[u8]) -> Outcome {
    match unordered_refusal(file) {
        None => tell_rows(rt, file),
        Some(refusal) => Err(refuse(rt, path, 0, file, refusal, b"")),
    }
}
