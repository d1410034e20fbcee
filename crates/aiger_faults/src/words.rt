// The words of a line, and the first that is no number.
ghost use Rattle.std.specs.Prelude.{◌<◌, ◌≤◌, length, IsNone};

use crate::{NoNumber, Word};
use text::bytes::{find, is_blank};

const LARGEST: u64 = 4294967295;

// The number with one digit more; one that is too large stays as it is.
fn with_digit(value: u64, digit: u8) -> u64 {
    if LARGEST < value {
        return value;
    }
    10 * value + u64::from(digit)
}

// Where digits end, and their number.
#[derive(Clone, Copy)]
struct Digits {
    end: usize,
    value: u64,
}

fn read_digits(text: &[u8], at: usize) -> Digits
    requires { at ≤ length text.now }
    ensures { (at ≤ result.end) × (result.end ≤ length text.now) }
{
    let mut value = 0;
    for end in at..text.len() {
        match text[end] {
            byte @ b'0'..=b'9' => value = with_digit(value, byte - b'0'),
            _ => return Digits { end, value },
        }
    }
    Digits {
        end: text.len(),
        value,
    }
}

// Where the word ends that begins at `at`.
fn word_end(text: &[u8], at: usize) -> usize
    requires { at ≤ length text.now }
{
    match text[at..].iter().position(|byte| is_blank(*byte)) {
        Some(size) => at + size,
        None => text.len(),
    }
}

// What a byte is where a number should stand, behind others or not.
fn word_of_byte(byte: u8, behind: bool) -> Word {
    match byte {
        b'\n' => if behind {
            Word::LastSpace
        } else {
            Word::LineFeed
        },
        b' ' => Word::Space,
        b'\t' => Word::Tab,
        b'\r' => Word::Return,
        _ => Word::Other,
    }
}

// What stands at `at`, behind numbers or not, where digits end at `end`; nothing if it is a number.
fn word_at(text: &[u8], at: usize, end: usize, value: u64, behind: bool) -> Option<Word>
    requires { (at ≤ end) × (end ≤ length text.now) }
    ensures { IsNone result → end < length text.now }
{
    let size = end - at;
    if 1 < size && text[at] == b'0' {
        return Some(Word::Zero);
    }
    if LARGEST < value {
        return Some(Word::Large);
    }
    if end == text.len() {
        return Some(Word::End);
    }
    match text[end] {
        b'\n' | b' ' if 0 < size => None,
        byte => Some(word_of_byte(byte, behind || 0 < size)),
    }
}

// How many numbers the line has that begins at `from`; or its first word that is no number.
pub fn count_numbers(text: &[u8], from: usize) -> Result<usize, NoNumber>
    requires { from ≤ length text.now }
{
    let mut count: usize = 0;
    let mut at = from;
    while at < text.len() {
        let Digits { end, value } = read_digits(text, at);
        if let Some(word) = word_at(text, at, end, value, 0 < count) {
            return Err(NoNumber {
                word,
                from: at,
                end: word_end(text, at),
            });
        }
        count = count.wrapping_add(1);
        if text[end] == b'\n' {
            return Ok(count);
        }
        at = end + 1;
    }
    Err(NoNumber {
        word: Word::End,
        from: at,
        end: at,
    })
}

// Number `index`, counted from 0, of a header's line in which all are numbers; 0 past the last.
pub fn header_number(line: &[u8], index: usize) -> usize {
    let mut at = line.len().min(4);
    for _ in 0..index {
        let space = find(line, at, b' ');
        if space == line.len() {
            return 0;
        }
        at = space + 1;
    }
    read_digits(line, at).value as usize
}
