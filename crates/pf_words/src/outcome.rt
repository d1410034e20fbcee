// What came of a call, and what is told of it.
use c_answers::PfRefusal;
use listing::refusals::put_refusal;
use std::io::Error;
use std::process::ExitCode;
use text::out::{Out, flush, one, tell, tell_visible, to, write_all};
use text::streams::{ERRORS, OUTPUT, Streams};

// Why a call is not done: what it is given is refused; or it has failed, as a wrong call has, or a file cannot be read or written.
#[derive(Clone, Copy, Debug, PartialEq, Eq)]
pub enum CallRefusal {
    Refused,
    Failed,
}

pub type Outcome = Result<(), CallRefusal>;

// The exit status, for the script.
pub fn tell_status(outcome: Outcome) -> ExitCode {
    match outcome {
        Ok(()) => ExitCode::SUCCESS,
        Err(CallRefusal::Refused) => ExitCode::from(1),
        Err(CallRefusal::Failed) => ExitCode::from(2),
    }
}

// ---- standard error

// A text, as it is.
pub fn say_text(rt: &impl Streams, text: &[u8]) {
    write_all(rt, ERRORS, text);
}

// A sentence with its numbers.
pub fn say(rt: &impl Streams, sentence: &[u8], numbers: [usize; 6]) {
    tell(rt, ERRORS, sentence, numbers);
}

// A word that was read, in quotes; of a long one its first bytes.
pub fn say_word(rt: &impl Streams, word: &[u8]) {
    say_text(rt, b"'");
    tell_visible(rt, ERRORS, text::bytes::first(word, 40));
    say_text(rt, b"'");
}

// The name of a file that is read.
fn name_of(path: &[u8]) -> &[u8] {
    match path {
        b"-" => b"standard input",
        _ => path,
    }
}

// How a message on a file begins: with its name, and on a line of a text with the name and the line, which is counted from 1.
pub fn say_where(rt: &impl Streams, path: &[u8], line: usize) {
    if line == 0 {
        say_text(rt, b"pf: ");
        say_text(rt, name_of(path));
        say_text(rt, b": ");
    } else {
        say_text(rt, name_of(path));
        say(rt, b":#: ", one(line));
    }
}

// A sentence, with its line feed if nothing follows it.
pub fn fail(rt: &impl Streams, sentence: &[u8]) -> CallRefusal {
    say_text(rt, b"pf: ");
    say_text(rt, sentence);
    CallRefusal::Failed
}

// What is wrong with a file, with the line feed.
pub fn fail_at(rt: &impl Streams, path: &[u8], wrong: &[u8]) -> CallRefusal {
    say_where(rt, path, 0);
    say_text(rt, wrong);
    CallRefusal::Failed
}

// What is wrong with a word of the call, with the line feed.
pub fn fail_word(rt: &impl Streams, before: &[u8], word: &[u8], after: &[u8]) -> CallRefusal {
    let refusal = fail(rt, before);
    say_word(rt, word);
    say_text(rt, after);
    refusal
}

// A file cannot be read or written, for this cause.
pub fn fail_by_cause(rt: &impl Streams, path: &[u8], cause: Error) -> CallRefusal {
    say_text(rt, b"pf: ");
    text::causes::fail(rt, name_of(path), cause);
    CallRefusal::Failed
}

// ---- standard output

// Whether all output went well.
pub fn outcome_if(rt: &impl Streams, right: bool) -> Outcome {
    if right {
        Ok(())
    } else {
        Err(fail(rt, b"standard output cannot be written\n"))
    }
}

// What waits for standard output is written.
pub fn finish(rt: &impl Streams, buffer: &[u8], out: Out) -> Outcome {
    let empty = flush(rt, buffer, out);
    outcome_if(rt, empty.right)
}

// A sentence with its numbers, and then the call is done.
pub fn done_with(rt: &impl Streams, sentence: &[u8], numbers: [usize; 6]) -> Outcome {
    let right = tell(rt, OUTPUT, sentence, numbers);
    outcome_if(rt, right)
}

// The line of a refusal; the call is refused then, or has failed.
pub fn tell_refusal(rt: &impl Streams, refusal: PfRefusal) -> CallRefusal {
    let mut room = text::rooms::buffer();
    let out = put_refusal(rt, &mut room, to(OUTPUT), refusal.number, refusal.place);
    finish(rt, &room, out).err().unwrap_or(CallRefusal::Refused)
}
