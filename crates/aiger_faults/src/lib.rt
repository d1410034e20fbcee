// Where an AIGER text that Import refuses with 24 is wrong, for whoever is to mend it: its header, else the first line that is wrong by itself, else the first that defines a variable a second time, else the first that uses one that no line defines.
#![tactic(auto)]

ghost use Rattle.std.specs.Prelude.{◌≤◌, length};
ghost use Rattle.aiger_lines.specs.Lines.{FewHeader};

mod lines;
mod names;
mod words;

use aiger_lines::{Header, Section};
use lines::{header_cause, line_fault};
use names::name_fault;
pub use words::header_number;

// What stands where a number should. LastSpace: the line ends behind a space.
#[derive(Clone, Copy)]
pub enum Word {
    End,
    LineFeed,
    LastSpace,
    Space,
    Tab,
    Return,
    Zero,
    Large,
    Other,
}

// A word that is no number, and its bytes.
#[derive(Clone, Copy)]
pub struct NoNumber {
    pub word: Word,
    pub from: usize,
    pub end: usize,
}

// What is wrong.
#[derive(Clone, Copy)]
pub enum Cause {
    // The text does not open with "aag ", or opens as the binary format does.
    Opening,
    Binary,
    // A word that is no number.
    NoNumber(NoNumber),
    // The header has not five numbers; it counts no output; the text ends before a line that it counts, and this is the last of them.
    Header {
        count: usize,
    },
    NoOutput,
    Missing {
        last: usize,
    },
    // A line has not as many numbers as its section wants; what it defines is no even literal of 2 to the largest; a latch's reset is not 0, 1 or the latch.
    Line {
        section: Section,
        count: usize,
    },
    Definition {
        section: Section,
        literal: u32,
        largest: usize,
    },
    Reset {
        reset: u32,
        latch: u32,
    },
    // A literal that is defined a second time, and one that no line defines.
    Twice {
        literal: u32,
    },
    Undefined {
        literal: u32,
    },
}

// A cause, and its line, counted from 1.
#[derive(Clone, Copy)]
pub struct Fault {
    pub line: usize,
    pub cause: Cause,
}

// Counted line `k` is line k + 2 of the text.
fn fault_at(k: usize, cause: Cause) -> Fault {
    Fault {
        line: k.wrapping_add(2),
        cause,
    }
}

// What is wrong with a text whose header is read.
fn counted_fault(text: &[u8], h: Header, from: usize, work: &mut [u8]) -> Option<Fault>
    requires { FewHeader h × (from ≤ length text.now) }
{
    if h.outputs == 0 {
        return Some(Fault {
            line: 1,
            cause: Cause::NoOutput,
        });
    }
    let first = line_fault(text, h, from);
    if first.is_some() {
        return first;
    }
    name_fault(text, h, from, work)
}

// What is wrong with the text, and where, if a fault is found. Names are asked for only if work has 49,152 bytes, or more.
pub fn find_fault(text: &[u8], work: &mut [u8]) -> Option<Fault> {
    match aiger_lines::read_header(text) {
        Some((h, from)) => counted_fault(text, h, from, work),
        None => Some(Fault {
            line: 1,
            cause: header_cause(text),
        }),
    }
}

// How many rows the header counts, with the constant; 0 if it is not read.
pub fn count_rows(text: &[u8]) -> usize {
    match aiger_lines::read_header(text) {
        Some((h, _)) => aiger_lines::line_count(h).wrapping_add(1),
        None => 0,
    }
}

// A gate's line, and the literal that it defines.
#[derive(Clone, Copy)]
pub struct Gate {
    pub line: usize,
    pub literal: u32,
}

// Where counted line `k` begins, or the first that is not read.
fn line_start(text: &[u8], from: usize, k: usize) -> usize
    requires { from ≤ length text.now }
    ensures { result ≤ length text.now }
{
    let mut at = from;
    for _ in 0..k {
        match aiger_lines::read_line(text, at) {
            Some(l) => at = l.next,
            None => return at,
        }
    }
    at
}

// The gate that is this row before sorting, in a text that is refused with 22.
pub fn find_gate(text: &[u8], row: usize) -> Option<Gate> {
    let (h, from) = aiger_lines::read_header(text)?;
    let k = row.wrapping_sub(1).wrapping_add(h.outputs);
    let l = aiger_lines::read_line(text, line_start(text, from, k))?;
    Some(Gate {
        line: k.wrapping_add(2),
        literal: l.first,
    })
}
