// Output through a lent buffer, which is written to a stream when it is full and at the end.
use crate::bytes::first;
use crate::numbers::digit_byte;
use crate::rooms;
use crate::streams::Streams;
use crate::words::Words;
use std::fmt::Write;

// Where output goes, how many bytes wait in the buffer, and whether every write went well.
#[derive(Clone, Copy)]
pub struct Out {
    pub fd: i32,
    pub waiting: usize,
    pub right: bool,
}

// Output to a descriptor, of which none waits.
pub fn to(fd: i32) -> Out {
    Out {
        fd,
        waiting: 0,
        right: true,
    }
}

// These bytes are written at once; whether that went well.
pub fn write_all(rt: &impl Streams, fd: i32, bytes: &[u8]) -> bool {
    rt.write_to(fd, bytes)
}

// The number's decimal digits, written at once; whether that went well.
pub fn print_decimal(rt: &impl Streams, fd: i32, value: u64) -> bool {
    let mut digits = Words::new();
    let _ = write!(digits, "{value}");
    rt.write_to(fd, digits.text())
}

// What waits is written.
pub fn flush(rt: &impl Streams, buffer: &[u8], out: Out) -> Out {
    let written = rt.write_to(out.fd, first(buffer, out.waiting));
    Out {
        fd: out.fd,
        waiting: 0,
        right: out.right && written,
    }
}

// A byte behind what waits; a buffer without room loses it, and says so.
fn put_waiting(buffer: &mut [u8], out: Out, byte: u8) -> Out {
    let at = out.waiting;
    if at < buffer.len() {
        buffer[at] = byte;
        Out {
            waiting: at + 1,
            ..out
        }
    } else {
        Out {
            right: false,
            ..out
        }
    }
}

// One byte more; a full buffer is written first.
pub fn put_byte(rt: &impl Streams, buffer: &mut [u8], out: Out, byte: u8) -> Out {
    if out.waiting < buffer.len() {
        return put_waiting(buffer, out, byte);
    }
    let empty = flush(rt, buffer, out);
    put_waiting(buffer, empty, byte)
}

// All bytes of a text.
pub fn put(rt: &impl Streams, buffer: &mut [u8], out: Out, text: &[u8]) -> Out {
    let mut now = out;
    for &byte in text {
        now = put_byte(rt, buffer, now, byte);
    }
    now
}

// A number in decimal digits.
pub fn put_number(rt: &impl Streams, buffer: &mut [u8], out: Out, value: usize) -> Out {
    let mut digits = Words::new();
    let _ = write!(digits, "{value}");
    put(rt, buffer, out, digits.text())
}

// ---- sentences with numbers

// The numbers of a sentence with none, one, two or three.
pub fn none() -> [usize; 6] {
    [0; 6]
}

pub fn one(x: usize) -> [usize; 6] {
    [x, 0, 0, 0, 0, 0]
}

pub fn two(x: usize, y: usize) -> [usize; 6] {
    [x, y, 0, 0, 0, 0]
}

pub fn three(x: usize, y: usize, z: usize) -> [usize; 6] {
    [x, y, z, 0, 0, 0]
}

// A sentence, each # replaced by the next of its numbers, and by 0 past the last.
pub fn put_filled(
    rt: &impl Streams,
    buffer: &mut [u8],
    out: Out,
    sentence: &[u8],
    numbers: [usize; 6],
) -> Out {
    let mut now = out;
    let mut numbers = numbers.iter();
    for &byte in sentence {
        now = if byte == b'#' {
            put_number(rt, buffer, now, numbers.next().copied().unwrap_or(0))
        } else {
            put_byte(rt, buffer, now, byte)
        };
    }
    now
}

// The same written at once; whether that went well.
pub fn tell(rt: &impl Streams, fd: i32, sentence: &[u8], numbers: [usize; 6]) -> bool {
    let mut room = rooms::buffer();
    let out = put_filled(rt, &mut room, to(fd), sentence, numbers);
    let empty = flush(rt, &room, out);
    empty.right
}

// ---- bytes

// A byte as two hexadecimal digits.
pub fn put_hex(rt: &impl Streams, buffer: &mut [u8], out: Out, byte: u8) -> Out {
    let high = put_byte(rt, buffer, out, digit_byte(byte / 16));
    put_byte(rt, buffer, high, digit_byte(byte % 16))
}

// This many blanks.
pub fn pad(rt: &impl Streams, buffer: &mut [u8], out: Out, count: usize) -> Out {
    let mut now = out;
    for _ in 0..count {
        now = put_byte(rt, buffer, now, b' ');
    }
    now
}

// ---- words of a text

// A byte that can be seen; ? for any other.
fn visible(byte: u8) -> u8 {
    match byte {
        33..=126 => byte,
        _ => b'?',
    }
}

// A word, of which every byte can be seen.
fn put_visible(rt: &impl Streams, buffer: &mut [u8], out: Out, word: &[u8]) -> Out {
    let mut now = out;
    for &byte in word {
        now = put_byte(rt, buffer, now, visible(byte));
    }
    now
}

// The same written at once; whether that went well.
pub fn tell_visible(rt: &impl Streams, fd: i32, word: &[u8]) -> bool {
    let mut room = rooms::buffer();
    let out = put_visible(rt, &mut room, to(fd), word);
    let empty = flush(rt, &room, out);
    empty.right
}
