// Check, Count, Show, Sort and Run tried on real files, as the script on standard input says: each line of a trial is printed with what is seen.
#![tactic(auto)]

ghost use Rattle.std.specs.Prelude.{◌≡◌, length};

use std::io::Input;
use tell::Tally;
use text::out::write_all;
use text::streams::Streams;

mod files;
mod runs;
mod sorts;
mod tell;

// Room for 513 blocks, one more than a file may have.
fn file_room() -> [u8; 262656]
    ensures { 262656 ≡ length result }
{
    [0; 262656]
}

fn list_room() -> [u8; 20000]
    ensures { 20000 ≡ length result }
{
    [0; 20000]
}

// The lines of a trial begin with a capital letter and go on with what is seen; titles stand alone.
fn echo(rt: &impl Streams, letter: u8, line: &[u8]) {
    match letter {
        b'A'..=b'Z' => {
            write_all(rt, 1, line);
            write_all(rt, 1, b":");
        }
        b'#' => {
            write_all(rt, 1, line);
            write_all(rt, 1, b"\n");
        }
        _ => {}
    }
}

// `done` ends a group.
fn finish(rt: &impl Streams, letter: u8, tally: Tally) -> Tally {
    match letter {
        b'd' => tell::total(rt, tally),
        _ => tally,
    }
}

// Builds a file, or tries Check, Count or Show.
fn obey_file(
    rt: &impl Streams,
    letter: u8,
    numbers: &[u32],
    file: &mut [u8],
    kept: &mut [u8],
    tally: Tally,
) -> Tally {
    scripted_files::build::obey(letter, numbers, file, kept);
    files::obey(rt, letter, numbers, file, tally)
}

// Fills a list, or tries Run.
fn obey_run(
    rt: &impl Streams,
    letter: u8,
    line: &[u8],
    numbers: &[u32],
    file: &[u8],
    inputs: &mut [u8],
    choices: &mut [u8],
    res: &mut [u8],
    tally: Tally,
) -> Tally {
    runs::obey_lists(letter, numbers, inputs, choices);
    runs::obey(rt, letter, line, numbers, file, choices, inputs, res, tally)
}

fn obey_line(
    rt: &impl Streams,
    line: &[u8],
    file: &mut [u8],
    kept: &mut [u8],
    inputs: &mut [u8],
    choices: &mut [u8],
    res: &mut [u8],
    tally: Tally,
) -> Tally {
    let mut numbers = [0u32; 16];
    let letter = text::bytes::get(line, 0);
    scripted_files::script::read_numbers(line, &mut numbers);
    echo(rt, letter, line);
    let tried = obey_file(rt, letter, &numbers, file, kept, tally);
    let sorted = sorts::obey(rt, letter, &numbers, file, kept, res, tried);
    let ran = obey_run(
        rt, letter, line, &numbers, file, inputs, choices, res, sorted,
    );
    finish(rt, letter, ran)
}

fn obey_script(
    rt: &impl Streams,
    text: &[u8],
    file: &mut [u8],
    kept: &mut [u8],
    inputs: &mut [u8],
    choices: &mut [u8],
    res: &mut [u8],
) {
    let mut tally = tell::no_tally();
    for line in text.split(|&byte| byte == b'\n') {
        tally = obey_line(rt, line, file, kept, inputs, choices, res, tally);
    }
}

fn main(rt: HostRuntime) {
    let mut input = text::rooms::large_buffer();
    let size = text::files::read_full(&mut rt.reader(), &mut input);
    let text = &input[..size];
    let mut files = file_room();
    let mut kept = file_room();
    let mut inputs = list_room();
    let mut choices = list_room();
    let mut results = file_room();
    obey_script(
        &rt,
        text,
        &mut files,
        &mut kept,
        &mut inputs,
        &mut choices,
        &mut results,
    );
}
