// A netlist file made from a text of rows, or what is wrong with the text.
use c_answers::PfRefusal;
use listing::rows::{MOST_ROWS, file_bytes};
use pf_causes::text_causes::say_text_cause;
use pf_causes::{say_cause, unordered_refusal};
use pf_words::calls::Call;
use pf_words::outcome::{
    CallRefusal, Outcome, fail_at, fail_by_cause, outcome_if, say, say_text, say_where, say_word,
    tell_refusal,
};
use pf_words::rooms::result_room;
use pf_words::row_causes::{first_own, say_row_cause};
use pf_words::saving::save;
use row_text::{LARGE, LineRefusal, TextRefusal, line_of, read_text, word_of};
use text::bytes::{first, get, rest};
use text::out::{one, tell};
use text::streams::{OUTPUT, Streams};

// ---- what is wrong with a text

// What a number is; LARGE stands for all numbers that are no smaller.
fn say_size(rt: &impl Streams, value: u32) {
    if value < LARGE {
        say(rt, b" is #", one(value as usize));
    } else {
        say_text(rt, b" is 65536 or more");
    }
}

// A byte that is too large.
fn say_large_byte(rt: &impl Streams, name: &[u8], value: u32) {
    say_text(rt, name);
    say_size(rt, value);
    say_text(rt, b", and at most 255");
}

// Which of a, b and c is too large.
fn say_wrong_field(rt: &impl Streams, numbers: &[u32]) {
    if LARGE <= get(numbers, 3) {
        say_text(rt, b"a");
    } else if LARGE <= get(numbers, 4) {
        say_text(rt, b"b");
    } else {
        say_text(rt, b"c");
    }
    say_text(rt, b" is 65536 or more, and at most 65535");
}

// A row's number, and the one that should stand there.
fn say_order(rt: &impl Streams, number: u32, rows: usize) {
    say_text(rt, b"the row's number");
    say_size(rt, number);
    say(rt, b", and # comes next", one(rows));
}

// The word that begins at `at`, which is no number.
fn say_no_number(rt: &impl Streams, text: &[u8], at: usize) {
    let word = word_of(rest(text, at));
    say_word(rt, word);
    say_text(rt, b" is not a number");
}

// What is wrong with a line of the text.
fn say_wrong(rt: &impl Streams, text: &[u8], numbers: &[u32], refusal: TextRefusal) {
    match refusal.wrong {
        LineRefusal::Word(start) => say_no_number(rt, text, refusal.at.wrapping_add(start)),
        LineRefusal::Count(count) => say(
            rt,
            b"numbers: #, and a row has 6: number kind reset a b c",
            one(count),
        ),
        LineRefusal::Order => say_order(rt, get(numbers, 0), refusal.rows),
        LineRefusal::Kind => say_large_byte(rt, b"the kind", get(numbers, 1)),
        LineRefusal::Reset => say_large_byte(rt, b"the reset", get(numbers, 2)),
        LineRefusal::Field => say_wrong_field(rt, numbers),
        LineRefusal::Rows => say_text(rt, b"a file has at most 32256 rows"),
    }
}

// The refusal of a line: its number on standard output, and how its message begins.
fn tell_line(rt: &impl Streams, source: &[u8], line: usize) -> CallRefusal {
    let right = tell(rt, OUTPUT, b"refused line #\n", one(line));
    let told = outcome_if(rt, right);
    say_where(rt, source, line);
    told.err().unwrap_or(CallRefusal::Refused)
}

// ---- the file

// The line of the row at which a file is refused; 0 if it is refused as a whole.
fn refused_line(text: &[u8], refusal: PfRefusal) -> usize {
    match refusal.number {
        6..=9 => line_of(text, refusal.place as usize),
        _ => 0,
    }
}

// If the gates of a file that is made are not in order, this is told: of a gate that names itself, else of the first that Check refuses.
fn say_if_unordered(rt: &impl Streams, source: &[u8], text: &[u8], file: &[u8]) {
    let refusal = phasefold::c_check::pf_check(file);
    if refusal.number != 0 {
        let row = first_own(file, refusal.place as usize);
        say_where(rt, source, line_of(text, row));
        say_text(rt, b"the file is made, but its gates are not in order: ");
        say_row_cause(rt, file, refusal.number, row);
        say_text(rt, b"\n");
    }
}

// A file is written to the path.
fn save_told(rt: &Call, source: &[u8], text: &[u8], path: &[u8], file: &[u8]) -> Outcome {
    save(rt, path, file)?;
    say_if_unordered(rt, source, text, file);
    Ok(())
}

// An accepted file is written to the path; its gates may stand in any order.
fn save_accepted(rt: &Call, source: &[u8], text: &[u8], path: &[u8], file: &[u8]) -> Outcome {
    let Some(refusal) = unordered_refusal(file) else {
        return save_told(rt, source, text, path, file);
    };
    let refused = tell_refusal(rt, refusal);
    say_where(rt, source, refused_line(text, refusal));
    if !say_text_cause(rt, text) {
        say_cause(rt, file, refusal.number, refusal.place as usize, b"");
    }
    say_text(rt, b"\n");
    Err(refused)
}

// Heads and check words around the rows that stand in `result`.
fn seal(res: &mut [u8], rows: usize) -> usize {
    if MOST_ROWS < rows {
        return 0;
    }
    let count = rows as u32;
    let size = file_bytes(count);
    if size <= res.len() {
        blocks::writer::write_file(res, rows);
    }
    size
}

// The file of this many rows that stand in `result`.
fn save_rows(
    rt: &Call,
    source: &[u8],
    text: &[u8],
    path: &[u8],
    res: &mut [u8],
    rows: usize,
) -> Outcome {
    if rows == 0 {
        let refused = tell_line(rt, source, 0);
        if !say_text_cause(rt, text) {
            say_text(rt, b"the text has no row");
        }
        say_text(rt, b"\n");
        return Err(refused);
    }
    let size = seal(res, rows);
    save_accepted(rt, source, text, path, first(res, size))
}

// The file of a text, in the lent result.
fn make_file(rt: &Call, source: &[u8], text: &[u8], path: &[u8], res: &mut [u8]) -> Outcome {
    let mut room = [0u32; 6];
    let numbers: &mut [u32] = &mut room;
    match read_text(text, numbers, res) {
        Ok(rows) => save_rows(rt, source, text, path, res, rows),
        Err(refusal) => {
            let refused = tell_line(rt, source, refusal.line);
            if !say_text_cause(rt, text) {
                say_wrong(rt, text, numbers, refusal);
            }
            say_text(rt, b"\n");
            Err(refused)
        }
    }
}

// The file of a text, unless it is an AIGER text.
fn make_in_room(rt: &Call, source: &[u8], text: &[u8], path: &[u8]) -> Outcome {
    if text.starts_with(b"aag ") {
        let refused = tell_line(rt, source, 1);
        say_text(
            rt,
            b"this is an AIGER text, of which pf import makes a netlist file\n",
        );
        return Err(refused);
    }
    let mut result = result_room();
    make_file(rt, source, text, path, &mut result)
}

// The text is read.
fn make_from(rt: &Call, source: &[u8], path: &[u8], room: &mut [u8]) -> Outcome {
    match text::files::load(&rt.host, source, room) {
        Ok(loaded) if loaded.longer => { Err(fail_at(rt, source, b"longer than 1048576 bytes\n")) }
        Ok(loaded) => make_in_room(rt, source, first(room, loaded.size), path),
        Err(cause) => Err(fail_by_cause(rt, source, cause)),
    }
}

// A netlist file at `path` from the text in the file `source`.
pub fn make(rt: &Call, source: &[u8], path: &[u8]) -> Outcome {
    let mut room = text::files::long_room();
    make_from(rt, source, path, &mut room)
}
