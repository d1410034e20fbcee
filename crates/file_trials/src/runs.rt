// The lines that try Run: its lists, what it writes, what it leaves, and questions 17 to 20.
ghost use Rattle.std.specs.Prelude.{◌≡◌, length};

use crate::tell::{Seen, Tally, seen_of};
use scripted_files::bytes::{all_from, byte_at, one_if, size_at};
use text::bytes::{first, get, put, rest};
use text::streams::Streams;

// What result and work hold before a run.
pub const RESULT_FILL: u8 = 170;

pub const WORK_FILL: u8 = 85;

// The most work that is lent, and some more.
pub fn work_room() -> [u8; 65552]
    ensures { 65552 ≡ length result }
{
    [WORK_FILL; 65552]
}

// ---- the lists

// Input values that change in no simple rhythm.
fn input_value(i: usize) -> u8 {
    ((i % 7 + i % 5) % 2) as u8
}

fn put_inputs(inputs: &mut [u8]) {
    for (i, value) in inputs.iter_mut().enumerate() {
        *value = input_value(i);
    }
}

// The lines that fill the lists: all inputs, one input, one choice.
pub fn obey_lists(letter: u8, numbers: &[u32], inputs: &mut [u8], choices: &mut [u8]) {
    match letter {
        b'p' => put_inputs(inputs),
        b'i' => put(inputs, size_at(numbers, 1), byte_at(numbers, 3)),
        b'x' => put(choices, size_at(numbers, 1), byte_at(numbers, 3)),
        _ => {}
    }
}

// ---- Run

// Run on lists and in buffers as long as the line says.
fn run_lent(
    numbers: &[u32],
    file: &[u8],
    choices: &[u8],
    inputs: &[u8],
    res: &mut [u8],
    work: &mut [u8],
) -> Seen {
    let netlist = first(file, size_at(numbers, 1));
    let steps = get(numbers, 2);
    let chosen = first(choices, size_at(numbers, 3));
    let given = first(inputs, size_at(numbers, 4));
    let result_end = size_at(numbers, 5).min(res.len());
    let work_end = size_at(numbers, 6).min(work.len());
    seen_of(run::run(
        netlist,
        steps,
        chosen,
        given,
        &mut res[..result_end],
        &mut work[..work_end],
    ))
}

// Whether work is cleared to its end and no further.
pub fn work_right(work: &[u8], size: usize) -> bool {
    all_from(first(work, size), 0, 0) && all_from(work, size, WORK_FILL)
}

// Whether work is cleared, and the result unchanged after what is written.
fn left_right(numbers: &[u32], res: &[u8], work: &[u8]) -> bool {
    all_from(res, size_at(numbers, 10), RESULT_FILL) && work_right(work, size_at(numbers, 6))
}

// Run SIZE STEPS CHOICES INPUTS RESULT WORK is NUMBER PLACE WRITTEN
fn try_run(
    rt: &impl Streams,
    tally: Tally,
    numbers: &[u32],
    file: &[u8],
    choices: &[u8],
    inputs: &[u8],
    res: &mut [u8],
) -> Tally {
    let mut work = work_room();
    res.fill(RESULT_FILL);
    let value = run_lent(numbers, file, choices, inputs, res, &mut work);
    let right = left_right(numbers, res, &work);
    let expected = Seen(get(numbers, 8), get(numbers, 9));
    crate::tell::outcome(rt, tally, value, expected, right)
}

// ---- what it wrote

fn digit(value: u8) -> u8 {
    match value {
        0 => b'0',
        1 => b'1',
        _ => b'?',
    }
}

// How many bytes of the line's word at `start` are the result's digits.
fn count_digits(line: &[u8], start: usize, res: &[u8]) -> u32 {
    let mut right: u32 = 0;
    for (i, &byte) in rest(line, start).iter().enumerate() {
        right = right.wrapping_add(one_if(byte == digit(get(res, i))));
    }
    right
}

// Digits COUNT DIGITS: the digits begin at byte 10 of the line.
fn try_digits(rt: &impl Streams, tally: Tally, line: &[u8], numbers: &[u32], res: &[u8]) -> Tally {
    let right = count_digits(line, 10, res);
    crate::tell::number(rt, tally, right, get(numbers, 1))
}

// What the sample shows at step t: the input of the last odd step but one before it, and 0 up to step 2.
fn sample_shows(t: usize) -> u8 {
    if t < 3 {
        return 0;
    }
    let pairs = (t - 1) / 2;
    input_value(2 * pairs - 1)
}

// How many of the first `steps` bytes are what the sample shows.
fn count_shown(res: &[u8], steps: usize) -> u32 {
    let mut right: u32 = 0;
    for t in 0..steps {
        right = right.wrapping_add(one_if(get(res, t) == sample_shows(t)));
    }
    right
}

// Values STEPS is COUNT, of a run of the sample
fn try_values(rt: &impl Streams, tally: Tally, numbers: &[u32], res: &[u8]) -> Tally {
    let right = count_shown(res, size_at(numbers, 1));
    crate::tell::number(rt, tally, right, get(numbers, 3))
}

pub fn obey(
    rt: &impl Streams,
    letter: u8,
    line: &[u8],
    numbers: &[u32],
    file: &[u8],
    choices: &[u8],
    inputs: &[u8],
    res: &mut [u8],
    tally: Tally,
) -> Tally {
    match letter {
        b'R' => try_run(rt, tally, numbers, file, choices, inputs, res),
        b'D' => try_digits(rt, tally, line, numbers, res),
        b'V' => try_values(rt, tally, numbers, res),
        _ => tally,
    }
}
