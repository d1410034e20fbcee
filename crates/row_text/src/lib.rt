// The rows of a text: a line a row, with its number, kind, reset, a, b and c. What follows # in a line is a remark, and a line without anything else says nothing.
#![tactic(auto)]

ghost use Rattle.std.specs.Prelude.{◌^◌, ◌<◌};
ghost use Rattle.blockfile.specs.RowCode.{Small};

use blockfile::Fields;
use listing::rows::MOST_ROWS;
use text::bytes::{find, get, is_blank};

// Larger than every field; a number that is larger still is read as this.
pub const LARGE: u32 = 65536;

// What is wrong with a line; of a word that is no number, where in the line it begins.
#[derive(Clone, Copy)]
pub enum LineRefusal {
    Word(usize),
    Count(usize),
    Order,
    Kind,
    Reset,
    Field,
    Rows,
}

// The first wrong line, counted from 1, where it begins, how many rows come before it, and what is wrong with it.
#[derive(Clone, Copy)]
pub struct TextRefusal {
    pub line: usize,
    pub at: usize,
    pub rows: usize,
    pub wrong: LineRefusal,
}

// ---- a line

// How many words a line has up to here, whether its last byte is part of one, and where the last one begins; and where the first begins that is no number.
#[derive(Clone, Copy)]
struct Words {
    count: usize,
    inside: bool,
    start: usize,
    wrong: Option<usize>,
}

// One digit more of the number in this slot, or the first one.
fn put_digit(numbers: &mut [u32], slot: usize, more: bool, digit: u8) {
    if slot < numbers.len() {
        let begun = if more { numbers[slot] } else { 0 };
        numbers[slot] = text::numbers::with_digit(begun, digit, LARGE);
    }
}

// The byte at `i` is part of a word: of the last one, or of one that begins there.
fn in_word(words: Words, i: usize) -> Words {
    if words.inside {
        return words;
    }
    Words {
        count: words.count.wrapping_add(1),
        inside: true,
        start: i,
        ..words
    }
}

// A digit goes on with a word, or begins one.
fn read_digit(numbers: &mut [u32], words: Words, i: usize, digit: u8) -> Words {
    let now = in_word(words, i);
    let slot = now.count.wrapping_sub(1);
    put_digit(numbers, slot, words.inside, digit);
    now
}

// A byte that is no digit: a blank, or part of a word that is no number.
fn read_other(words: Words, i: usize, byte: u8) -> Words {
    if is_blank(byte) {
        return Words {
            inside: false,
            ..words
        };
    }
    let now = in_word(words, i);
    Words {
        wrong: now.wrong.or(Some(now.start)),
        ..now
    }
}

// The byte of a line at `i`.
fn read_byte(numbers: &mut [u32], words: Words, i: usize, byte: u8) -> Words {
    match byte {
        b'0'..=b'9' => read_digit(numbers, words, i, byte - b'0'),
        _ => read_other(words, i, byte),
    }
}

// The numbers of a line, of which the first ones are kept.
fn read_words(line: &[u8], numbers: &mut [u32]) -> Words {
    let mut words = Words {
        count: 0,
        inside: false,
        start: 0,
        wrong: None,
    };
    for (i, byte) in line.iter().enumerate() {
        words = read_byte(numbers, words, i, *byte);
    }
    words
}

// Whether a line says nothing: it is blank, but for a remark.
fn is_silent(line: &[u8]) -> bool {
    let first = line.iter().find(|byte| !is_blank(**byte));
    matches!(first, None | Some(b'#'))
}

// The word at the start of a text: what comes before a blank or a remark.
pub fn word_of(text: &[u8]) -> &[u8] {
    let end = text
        .iter()
        .position(|byte| is_blank(*byte) || *byte == b'#');
    match end {
        Some(end) => &text[..end],
        None => text,
    }
}

// Whether a, b and c have 16 bits.
fn fields_fit(numbers: &[u32]) -> bool {
    get(numbers, 3) < LARGE && get(numbers, 4) < LARGE && get(numbers, 5) < LARGE
}

// Whether six numbers are the next row.
fn row_line(numbers: &[u32], rows: usize) -> Result<(), LineRefusal> {
    if MOST_ROWS <= rows {
        return Err(LineRefusal::Rows);
    }
    if get(numbers, 0) as usize != rows {
        return Err(LineRefusal::Order);
    }
    if 255 < get(numbers, 1) {
        return Err(LineRefusal::Kind);
    }
    if 255 < get(numbers, 2) {
        return Err(LineRefusal::Reset);
    }
    if !fields_fit(numbers) {
        return Err(LineRefusal::Field);
    }
    Ok(())
}

// Whether a line says a row, after `rows` rows, and its numbers.
fn read_line(line: &[u8], numbers: &mut [u32], rows: usize) -> Result<bool, LineRefusal> {
    if is_silent(line) {
        return Ok(false);
    }
    let words = read_words(line, numbers);
    if let Some(start) = words.wrong {
        return Err(LineRefusal::Word(start));
    }
    if words.count != 6 {
        return Err(LineRefusal::Count(words.count));
    }
    row_line(numbers, rows)?;
    Ok(true)
}

// ---- a row

// The low 8 bits.
fn low_byte(value: u32) -> u8 {
    (value % 256) as u8
}

// The low 16 bits.
fn low_field(value: u32) -> usize
    ensures { result < 2 ^ 16 }
{
    (value % 65536) as usize
}

// The fields that a line's numbers have.
fn fields_in(numbers: &[u32]) -> Fields
    ensures { Small result }
{
    let kind = low_byte(get(numbers, 1));
    let reset = low_byte(get(numbers, 2));
    let a = low_field(get(numbers, 3));
    let b = low_field(get(numbers, 4));
    let c = low_field(get(numbers, 5));
    Fields {
        kind,
        reset,
        a,
        b,
        c,
    }
}

// The row of these numbers, where it stands in the file.
fn put_fields(res: &mut [u8], row: usize, numbers: &[u32]) {
    if row < MOST_ROWS {
        let offset = blockfile::row_offset(row);
        let end = offset + 8;
        if end <= res.len() {
            blockfile::write_row(res, row, fields_in(numbers));
        }
    }
}

// ---- the text

// A line's row is put where it stands in the file, and whether it says one; a remark at the line's end is not read.
fn take_line(
    line: &[u8],
    numbers: &mut [u32],
    rows: usize,
    res: &mut [u8],
) -> Result<bool, LineRefusal> {
    let end = find(line, 0, b'#');
    let row = read_line(&line[..end], numbers, rows)?;
    if row {
        put_fields(res, rows, numbers);
    }
    Ok(row)
}

// How many rows the text has, put where they stand in the file; or the first wrong line, its numbers as far as they were read.
pub fn read_text(text: &[u8], numbers: &mut [u32], res: &mut [u8]) -> Result<usize, TextRefusal> {
    let mut line: usize = 0;
    let mut rows: usize = 0;
    let mut at = 0;
    while at < text.len() {
        line = line.wrapping_add(1);
        let end = find(text, at, b'\n');
        match take_line(&text[at..end], numbers, rows, res) {
            Ok(true) => rows = rows.wrapping_add(1),
            Ok(false) => {}
            Err(wrong) => {
                return Err(TextRefusal {
                    line,
                    at,
                    rows,
                    wrong,
                });
            }
        }
        at = end + 1;
    }
    Ok(rows)
}

// The line of a row, counted from 1, in a text whose lines are right.
pub fn line_of(text: &[u8], row: usize) -> usize {
    let mut line: usize = 0;
    let mut rows: usize = 0;
    let mut at = 0;
    while at < text.len() {
        line = line.wrapping_add(1);
        let end = find(text, at, b'\n');
        if !is_silent(&text[at..end]) {
            if rows == row {
                return line;
            }
            rows = rows.wrapping_add(1);
        }
        at = end + 1;
    }
    line
}
