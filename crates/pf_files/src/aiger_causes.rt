// What an AIGER text is not imported for: refusals 22, 24 and 25, each on its line of the text.
use aiger_faults::{Cause, NoNumber, Word, header_number};
use aiger_lines::Section;
use listing::folds::work_room;
use pf_causes::loop_causes::say_text_loop;
use pf_causes::text_causes::say_text_cause;
use pf_words::outcome::{say, say_text, say_where, say_word};
use row_text::read_text;
use text::bytes::{find, first, rest};
use text::numbers::LARGEST;
use text::out::{one, two};
use text::streams::Streams;

// A word of the text, and what is wrong with it.
fn say_wrong_word(rt: &impl Streams, word: &[u8], wrong: &[u8]) {
    say_word(rt, word);
    say_text(rt, wrong);
}

// What stands where a number should.
fn say_no_number(rt: &impl Streams, word: Word, bytes: &[u8]) {
    match word {
        Word::End => say_text(rt, b"the text ends in this line, without a line feed"),
        Word::LineFeed => say_text(rt, b"the line ends where a number should stand"),
        Word::LastSpace => {
            say_text(
                rt,
                b"a space stands at the line's end: sed 's/ *$//' drops it",
            );
        }
        Word::Space => say_text(rt, b"a space stands where a number should"),
        Word::Tab => say_text(
            rt,
            b"there is a tab, and numbers are parted by single spaces",
        ),
        Word::Return => {
            say_text(
                rt,
                b"there is a carriage return, and a line ends with a line feed alone",
            );
        }
        Word::Zero => say_wrong_word(rt, bytes, b" is no number: it has a leading zero"),
        Word::Large => say_wrong_word(rt, bytes, b" is above 4294967295, the largest number"),
        _ => say_wrong_word(rt, bytes, b" is no number"),
    }
}

// Whether the text begins with a row, as pf make takes it.
fn begins_with_row(text: &[u8]) -> bool {
    let mut numbers = [0u32; 6];
    let mut nowhere = [0u8; 1];
    match read_text(text, &mut numbers, &mut nowhere) {
        Ok(rows) => 0 < rows,
        Err(refusal) => 0 < refusal.rows,
    }
}

// A text that does not open as it should.
fn say_opening(rt: &impl Streams, text: &[u8]) {
    if begins_with_row(text) {
        say_text(
            rt,
            b"this is a text of rows, of which pf make makes a netlist file",
        );
    } else {
        say_text(rt, b"the text does not open with \"aag \"");
    }
}

// What to write for a header of AIGER 1.9, with B, C, J and F after the five numbers. B and C count lines that follow those of the outputs.
fn say_longer_header(rt: &impl Streams, line: &[u8]) {
    let bad = header_number(line, 5);
    let more = bad.wrapping_add(header_number(line, 6));
    let outputs = header_number(line, 3).wrapping_add(more);
    let justice = header_number(line, 7);
    let fairness = header_number(line, 8);
    let plain = [
        header_number(line, 0),
        header_number(line, 1),
        header_number(line, 2),
        outputs,
        header_number(line, 4),
        0,
    ];
    if 0 < justice.wrapping_add(fairness) {
        say_text(rt, b"; justice and fairness (J, F) are not read");
    } else if more == 0 {
        say(
            rt,
            b"; the others are 0, so \"aag # # # # #\" says the same",
            plain,
        );
    } else if outputs <= LARGEST as usize {
        say(
            rt,
            b"; bad states and constraints follow the outputs, so \"aag # # # # #\" reads them as outputs",
            plain,
        );
    }
}

// A header of another count of numbers.
fn say_header(rt: &impl Streams, text: &[u8], count: usize) {
    say(
        rt,
        b"the header has # numbers, and 5 are read: M I L O A",
        one(count),
    );
    if 5 < count && count <= 9 {
        say_longer_header(rt, first(text, find(text, 0, b'\n')));
    }
}

// A line of another count of numbers than its section wants.
fn say_count(rt: &impl Streams, section: Section, count: usize) {
    say(rt, b"numbers: #, and ", one(count));
    match section {
        Section::Input => say_text(rt, b"an input line has 1: its literal"),
        Section::Latch => {
            say_text(
                rt,
                b"a latch line has 2 or 3: its literal, its next value, its reset",
            );
        }
        Section::Output => say_text(rt, b"an output line has 1: the literal that it shows"),
        Section::Gate => say_text(rt, b"a gate line has 3: its literal and its two operands"),
    }
}

// What a line of the section defines.
fn say_section(rt: &impl Streams, section: Section) {
    match section {
        Section::Input => say_text(rt, b"input"),
        Section::Latch => say_text(rt, b"latch"),
        Section::Output => say_text(rt, b"output"),
        Section::Gate => say_text(rt, b"gate"),
    }
}

// A definition that is none.
fn say_definition(rt: &impl Streams, section: Section, literal: u32, largest: usize) {
    say_section(rt, section);
    say(
        rt,
        b" # is no even literal from 2 to 2M, #",
        two(literal as usize, largest),
    );
}

// A literal that no line defines.
fn say_undefined(rt: &impl Streams, literal: u32) {
    let used = literal as usize;
    if used % 2 == 0 {
        say(rt, b"# is used, and no line defines it", one(used));
    } else {
        say(rt, b"# is used, and no line defines #", two(used, used - 1));
    }
}

// What is wrong is not known.
fn say_unread(rt: &impl Streams) {
    say_text(rt, b"this is not read as an AIGER text");
}

// What is wrong with a line by itself.
fn say_line_cause(rt: &impl Streams, text: &[u8], cause: Cause) {
    match cause {
        Cause::NoNumber(NoNumber { word, from, end }) => {
            let size = end.wrapping_sub(from);
            say_no_number(rt, word, first(rest(text, from), size));
        }
        Cause::Missing { last } => say(
            rt,
            b"the text ends before this line, and the last line that the header counts is #",
            one(last),
        ),
        Cause::Line { section, count } => say_count(rt, section, count),
        Cause::Definition {
            section,
            literal,
            largest,
        } => say_definition(rt, section, literal, largest),
        Cause::Reset { reset, latch } => say(
            rt,
            b"reset # is not 0, 1 or the latch itself, #",
            two(reset as usize, latch as usize),
        ),
        _ => say_unread(rt),
    }
}

// 24
fn say_fault(rt: &impl Streams, text: &[u8], cause: Cause) {
    match cause {
        Cause::Opening => say_opening(rt, text),
        Cause::Binary => say_text(rt, b"this is binary AIGER, of which aigtoaig makes a text"),
        Cause::Header { count } => say_header(rt, text, count),
        Cause::NoOutput => say_text(rt, b"O is 0, and at least one output is needed"),
        Cause::Twice { literal } => say(rt, b"# is defined a second time", one(literal as usize)),
        Cause::Undefined { literal } => say_undefined(rt, literal),
        _ => say_line_cause(rt, text, cause),
    }
}

// 24, with its line: where no fault is found, the one behind the last that the header counts.
fn say_other_text(rt: &impl Streams, source: &[u8], text: &[u8]) {
    let mut work = work_room();
    let fault = aiger_faults::find_fault(text, &mut work);
    let line = match fault {
        Some(fault) => fault.line,
        None => aiger_faults::count_rows(text).wrapping_add(1),
    };
    say_where(rt, source, line);
    if say_text_cause(rt, text) {
        return;
    }
    match fault {
        Some(fault) => say_fault(rt, text, fault.cause),
        None => say_unread(rt),
    }
}

// 22
fn say_waiting_gate(rt: &impl Streams, source: &[u8], text: &[u8], row: usize) {
    let (line, literal) = match aiger_faults::find_gate(text, row) {
        Some(gate) => (gate.line, gate.literal as usize),
        None => (0, 0),
    };
    say_where(rt, source, line);
    say_text_loop(rt, text, literal, row);
}

// 25
fn say_many_rows(rt: &impl Streams, source: &[u8], text: &[u8]) {
    say_where(rt, source, 1);
    say(
        rt,
        b"the header counts # rows with the constant, and a file has at most 32256",
        one(aiger_faults::count_rows(text)),
    );
}

// The sentence of a refusal of this number.
pub fn say_aiger_cause(rt: &impl Streams, source: &[u8], text: &[u8], number: u32, place: usize) {
    match number {
        22 => say_waiting_gate(rt, source, text, place),
        24 => say_other_text(rt, source, text),
        _ => say_many_rows(rt, source, text),
    }
    say_text(rt, b"\n");
}
