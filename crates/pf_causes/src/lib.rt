// A refusal told: its line on standard output, and on standard error a sentence that says what is wrong where, with the values seen; and the values of a run.
#![tactic(auto)]

pub mod loop_causes;
pub mod text_causes;
pub mod values;

use c_answers::{PfCounts, PfRefusal};
use listing::rows::{fields_of, last_block, row_count};
use loop_causes::say_loop;
use pf_words::block_causes::say_block_cause;
use pf_words::outcome::{CallRefusal, fail_word, say, say_text, say_where, tell_refusal};
use pf_words::row_causes::say_row_cause;
use text::bytes::get;
use text::out::{one, two};
use text::streams::Streams;
use text_causes::{encoding_of, is_text_byte, say_encoding};

const MOST_FILE_BYTES: usize = 262144;

// 1
fn say_length(rt: &impl Streams, file: &[u8]) {
    let size = file.len();
    if MOST_FILE_BYTES < size {
        say_text(rt, b"the file has more than 262144");
    } else {
        say(rt, b"the file has #", one(size));
    }
    say_text(rt, b" bytes, and a netlist file has 1 to 512 blocks of 512");
}

// 11
fn say_many_rows(rt: &impl Streams, file: &[u8]) {
    let rows = row_count(file);
    say(
        rt,
        b"# rows, and a netlist that is folded has at most 1008",
        one(rows),
    );
}

// How many registers an accepted file has.
fn register_count(file: &[u8]) -> usize {
    match accept::accept(file) {
        Ok(accepted) => accepted.counts.registers,
        Err(_) => 0,
    }
}

// 12
fn say_many_registers(rt: &impl Streams, file: &[u8]) {
    let registers = register_count(file);
    say(
        rt,
        b"# registers, and a netlist that is folded has at most 256",
        one(registers),
    );
}

// The phase of an input or an output.
fn phase_of(file: &[u8], row: usize) -> usize {
    let fields = fields_of(file, row);
    if fields.kind == 1 { fields.b } else { fields.c }
}

// 13
fn say_phase(rt: &impl Streams, file: &[u8], row: usize) {
    let phase = phase_of(file, row);
    say(
        rt,
        b"row #: phase #, so this is a fold already: every phase of a netlist that is to be folded is 0",
        two(row, phase),
    );
}

// A number that is a word of the call, and what is wrong with it.
fn say_number(rt: &impl Streams, before: &[u8], word: &[u8], after: &[u8]) {
    say_text(rt, before);
    say_text(rt, word);
    say_text(rt, after);
}

// 21
fn say_no_block(rt: &impl Streams, file: &[u8], word: &[u8]) {
    say_number(rt, b"there is no block ", word, b", the last one is ");
    say(rt, b"#", one(last_block(file)));
}

// 14, 17 and 21, on the word that was given with the call.
fn say_word_cause(rt: &impl Streams, file: &[u8], number: u32, word: &[u8]) {
    match number {
        14 => say_number(rt, b"the wish ", word, b" is not 0 to 8"),
        17 => say_number(rt, b"", word, b" steps, and a run has at most 4096"),
        _ => say_no_block(rt, file, word),
    }
}

// 10, 15, 16 and 23.
fn say_plain_cause(rt: &impl Streams, number: u32) {
    match number {
        10 => say_text(rt, b"there is no output"),
        16 => {
            say_text(
                rt,
                b"states 0 to 256 of the three-valued run all differ, so there is no lasso",
            );
        }
        _ => say_text(rt, b"the memory that is lent is too small"),
    }
}

// 10 to 17, and 21 to 23.
fn say_other_cause(rt: &impl Streams, file: &[u8], number: u32, place: usize, word: &[u8]) {
    match number {
        11 => say_many_rows(rt, file),
        12 => say_many_registers(rt, file),
        13 => say_phase(rt, file, place),
        14 | 17 | 21 => say_word_cause(rt, file, number, word),
        22 => say_loop(rt, file, place),
        _ => say_plain_cause(rt, number),
    }
}

// All but 18 to 20; `word` is the number that was given with the call.
pub fn say_cause(rt: &impl Streams, file: &[u8], number: u32, place: usize, word: &[u8]) {
    match number {
        1 => say_length(rt, file),
        2..=5 => say_block_cause(rt, file, number, place),
        6..=9 => say_row_cause(rt, file, number, place),
        _ => say_other_cause(rt, file, number, place, word),
    }
}

// Whether the first bytes are those of a text; a netlist file begins with a byte 1 or 2.
fn looks_like_text(file: &[u8]) -> bool {
    (0..4).all(|at| is_text_byte(get(file, at)))
}

// Of what kind of text a file looks, and what makes a netlist file of that.
fn say_kind_of_text(rt: &impl Streams, file: &[u8]) {
    if file.starts_with(b"aag ") {
        say_text(
            rt,
            b"; this is an AIGER text, of which pf import makes a netlist file",
        );
    } else if file.starts_with(b"aig ") {
        say_text(
            rt,
            b"; this is binary AIGER: aigtoaig makes a text of it, and pf import of that a netlist file",
        );
    } else {
        say_text(
            rt,
            b"; it looks like text, of which pf make makes a netlist file",
        );
    }
}

// A file that is refused for its length or its first block may be a text.
fn say_text_remark(rt: &impl Streams, file: &[u8], number: u32) {
    if 3 < number {
        return;
    }
    if looks_like_text(file) {
        say_kind_of_text(rt, file);
    } else {
        say_encoding(rt, b"; ", encoding_of(file));
    }
}

// A refusal is told; `line` is that of the text that the file is made from, if it is.
pub fn refuse(
    rt: &impl Streams,
    path: &[u8],
    line: usize,
    file: &[u8],
    refusal: PfRefusal,
    word: &[u8],
) -> CallRefusal {
    let refused = tell_refusal(rt, refusal);
    let place = refusal.place as usize;
    say_where(rt, path, line);
    say_cause(rt, file, refusal.number, place, word);
    say_text_remark(rt, file, refusal.number);
    say_text(rt, b"\n");
    refused
}

// The refusal that stands in an answer of Count.
pub fn count_refusal(counts: PfCounts) -> PfRefusal {
    PfRefusal {
        number: counts.number,
        place: counts.place,
    }
}

// What a file is refused for whose gates may stand in any order.
pub fn unordered_refusal(file: &[u8]) -> Option<PfRefusal> {
    match accept::accept_unordered(file) {
        Ok(_) => None,
        Err(refusal) => Some(c_answers::refusal_numbers(refusal)),
    }
}

// The number that a word of the call is; else that it is none is told, with what stands before the word and after it.
pub fn number_of(
    rt: &impl Streams,
    before: &[u8],
    word: &[u8],
    after: &[u8],
) -> Result<u32, CallRefusal> {
    match text::numbers::read(word) {
        Some(number) => Ok(number),
        None => Err(fail_word(rt, before, word, after)),
    }
}
