// Why a file cannot be read or written, in the system's words.
use crate::out::{Out, flush, put, to};
use crate::rooms;
use crate::streams::{ERRORS, Streams};
use crate::words::Words;
use std::fmt::Write;
use std::io::Error;

// The system's words: std tells the error's number behind them, in brackets.
fn words_of(text: &[u8], numbered: bool) -> &[u8] {
    match text.iter().rposition(|&byte| byte == b'(') {
        Some(at) if numbered && at > 0 => &text[..at - 1],
        _ => text,
    }
}

// The cause, without its number.
pub fn put_cause(rt: &impl Streams, buffer: &mut [u8], out: Out, cause: Error) -> Out {
    let mut words = Words::new();
    let _ = write!(words, "{cause}");
    let numbered = cause.raw_os_error().is_some();
    put(rt, buffer, out, words_of(words.text(), numbered))
}

// A line of standard error: what failed, a colon and the cause.
pub fn fail(rt: &impl Streams, what: &[u8], cause: Error) {
    let mut room = rooms::buffer();
    let named = put(rt, &mut room, to(ERRORS), what);
    let parted = put(rt, &mut room, named, b": ");
    let told = put_cause(rt, &mut room, parted, cause);
    let all = put(rt, &mut room, told, b"\n");
    flush(rt, &room, all);
}
