// The header, and each line by itself.
ghost use Rattle.std.specs.Prelude.{◌≤◌, length};
ghost use Rattle.aiger_lines.specs.Lines.{FewHeader};

use crate::words::count_numbers;
use crate::{Cause, Fault, fault_at};
use aiger_lines::{Header, Line, Section};

// What is wrong with a header that is not read.
pub fn header_cause(text: &[u8]) -> Cause {
    if text.starts_with(b"aig ") {
        return Cause::Binary;
    }
    if !text.starts_with(b"aag ") {
        return Cause::Opening;
    }
    match count_numbers(text, 4) {
        Ok(count) => Cause::Header { count },
        Err(word) => Cause::NoNumber(word),
    }
}

// Whether a line of this section may have so many numbers.
fn count_right(section: Section, count: usize) -> bool {
    match section {
        Section::Input => count == 1,
        Section::Latch => count == 2 || count == 3,
        Section::Output => count == 1,
        Section::Gate => count == 3,
    }
}

// What is wrong with the numbers of a line.
fn numbers_cause(h: Header, section: Section, l: Line) -> Cause {
    if !count_right(section, l.count) {
        return Cause::Line {
            section,
            count: l.count,
        };
    }
    if matches!(section, Section::Latch) && 1 < l.third && l.third != l.first {
        return Cause::Reset {
            reset: l.third,
            latch: l.first,
        };
    }
    Cause::Definition {
        section,
        literal: l.first,
        largest: h.maximum.wrapping_add(h.maximum),
    }
}

// What is wrong with a line that is not read; `lines` are counted.
fn unread_cause(text: &[u8], section: Section, at: usize, lines: usize) -> Cause
    requires { at ≤ length text.now }
{
    if at == text.len() {
        return Cause::Missing {
            last: lines.wrapping_add(1),
        };
    }
    match count_numbers(text, at) {
        Ok(count) => Cause::Line { section, count },
        Err(word) => Cause::NoNumber(word),
    }
}

// The first line that is wrong by itself.
pub fn line_fault(text: &[u8], h: Header, from: usize) -> Option<Fault>
    requires { FewHeader h × (from ≤ length text.now) }
{
    let lines = aiger_lines::line_count(h);
    let mut at = from;
    for k in 0..lines {
        let section = aiger_lines::section_of(h, k);
        let Some(l) = aiger_lines::read_line(text, at) else {
            return Some(fault_at(k, unread_cause(text, section, at, lines)));
        };
        if !aiger_lines::line_right(h, section, l) {
            return Some(fault_at(k, numbers_cause(h, section, l)));
        }
        at = l.next;
    }
    None
}
