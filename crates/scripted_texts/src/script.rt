// The lines of standard input: a word, of which the first letter counts, and what is to be imported and expected.
use text::bytes::{find, get, put};
use text::numbers::{LARGEST, with_digit};

pub fn plus(x: usize, y: usize) -> usize {
    x.wrapping_add(y)
}

pub fn minus(x: usize, y: usize) -> usize {
    x.wrapping_sub(y)
}

// How many bytes of result and work are lent.
#[derive(Clone, Copy)]
pub struct Lent {
    pub result: usize,
    pub work: usize,
}

pub fn enough() -> Lent {
    Lent {
        result: 262144,
        work: 196608,
    }
}

// lent RESULT WORK
pub fn lent_of(numbers: &[u32]) -> Lent {
    Lent {
        result: get(numbers, 0) as usize,
        work: get(numbers, 1) as usize,
    }
}

// ---- numbers

// How many numbers there are, and whether the last goes on.
#[derive(Clone, Copy)]
struct Reading {
    count: usize,
    open: bool,
}

// One byte more: a digit is one more of a number, another byte ends it.
fn read_byte(numbers: &mut [u32], reading: Reading, byte: u8) -> Reading {
    let slot = reading.count;
    if !byte.is_ascii_digit() {
        let next = if reading.open { plus(slot, 1) } else { slot };
        return Reading {
            count: next,
            open: false,
        };
    }
    if slot < numbers.len() {
        numbers[slot] = with_digit(numbers[slot], byte - b'0', LARGEST);
    }
    Reading {
        count: slot,
        open: true,
    }
}

// The numbers in a part of a line, whatever stands between them; the answer is how many.
pub fn read_numbers(part: &[u8], numbers: &mut [u32]) -> usize {
    let mut reading = Reading {
        count: 0,
        open: false,
    };
    for &byte in part {
        reading = read_byte(numbers, reading, byte);
    }
    read_byte(numbers, reading, b' ').count
}

// ---- text TEXT => NUMBERS -- COMMENT

// Where the text ends.
fn arrow_in(line: &[u8]) -> usize {
    line.windows(3)
        .position(|part| part == b" =>".as_slice())
        .unwrap_or(line.len())
}

// What stands between the arrow and the comment.
pub fn read_expected(line: &[u8], numbers: &mut [u32]) -> usize {
    let from = plus(arrow_in(line), 3).min(line.len());
    let end = find(line, from, b'-');
    read_numbers(&line[from..end], numbers)
}

// How far a text is put: how many bytes, how many bytes of an escape are read, and what its digits say so far.
#[derive(Clone, Copy)]
struct Putting {
    size: usize,
    read: u8,
    value: u8,
}

fn with_size(size: usize) -> Putting {
    Putting {
        size,
        read: 0,
        value: 0,
    }
}

fn put_next(text: &mut [u8], size: usize, byte: u8) -> Putting {
    put(text, size, byte);
    with_size(plus(size, 1))
}

fn hex_value(byte: u8) -> u8 {
    let zero = if byte <= b'9' { b'0' } else { b'a' - 10 };
    byte.wrapping_sub(zero) % 16
}

// The byte after a backslash.
fn put_escape(text: &mut [u8], size: usize, byte: u8) -> Putting {
    match byte {
        b'n' => put_next(text, size, b'\n'),
        b't' => put_next(text, size, b'\t'),
        b'r' => put_next(text, size, b'\r'),
        _ => Putting {
            size,
            read: 2,
            value: 0,
        },
    }
}

fn put_byte(text: &mut [u8], putting: Putting, byte: u8) -> Putting {
    let size = putting.size;
    let value = 16 * (putting.value % 16) + hex_value(byte) % 16;
    match putting.read {
        0 if byte == b'\\' => Putting {
            size,
            read: 1,
            value: 0,
        },
        0 => put_next(text, size, byte),
        1 => put_escape(text, size, byte),
        2 => Putting {
            size,
            read: 3,
            value,
        },
        _ => put_next(text, size, value),
    }
}

// The text of the line, which begins after "text ", with its escapes read; the answer is its length.
pub fn put_text(line: &[u8], text: &mut [u8]) -> usize {
    let mut putting = with_size(0);
    for at in 5..arrow_in(line) {
        putting = put_byte(text, putting, get(line, at));
    }
    putting.size
}
