// Trace on two designs with answers that are known: what it answers, every byte of the trace's memory, and that result and work are all zero.
use crate::folds::{FILL, add, all_zero, result_room, work_room};
use crate::listed::refused;
use reference_questions::Refusal;
use text::bytes::{first, get, put, rest};

// How much of a trace's memory is looked at.
const TRACE_ROOM: usize = 32;

// What is asked for. The digits of `values` are the choices and the inputs.
#[derive(Clone, Copy)]
struct Request {
    wish: u32,
    groups: u32,
    phase: u32,
    choices: usize,
    inputs: usize,
    values: u32,
}

// What is lent.
#[derive(Clone, Copy)]
struct Memories {
    result: usize,
    work: usize,
    trace: usize,
}

// Four numbers for a trace. The digits of the first: the design, the wish, the groups (three), the phase, how many choices and inputs. Of the second: the memories, of which 0 are the least, 1 more, 2 have a short result and 3 short work; bytes of memory for the trace (two); and the answer: number (two), steps, bytes of the trace (two). Then the choices and inputs, and the trace.
// The sample, design 0, has N 2, and its one input is kept in phase 1. Of design 1 the input with label 2 is kept in phase 0, the one with label 9 in phase 1, and of the X registers the one with label 1.
const KNOWN: [u32; 68] = [
    0_0_002_1_0_2,
    0_04_00_4_04,
    10,
    0100,
    0_0_002_1_0_2,
    1_20_00_4_04,
    10,
    0100,
    0_0_002_0_0_2,
    0_03_00_3_03,
    10,
    010,
    0_0_001_0_0_1,
    0_02_00_1_01,
    1,
    0,
    0_0_001_1_0_1,
    0_02_00_2_02,
    1,
    01,
    0_0_000_0_0_2,
    0_00_26_0_00,
    29,
    0,
    0_0_513_0_0_2,
    0_00_26_0_00,
    29,
    0,
    0_0_002_2_0_2,
    0_00_26_0_00,
    29,
    0,
    0_0_001_0_0_1,
    0_00_27_0_00,
    2,
    0,
    0_0_002_0_0_1,
    0_00_27_0_00,
    1,
    0,
    0_0_002_1_1_2,
    0_04_27_0_00,
    110,
    0,
    0_0_002_1_0_2,
    0_03_28_0_00,
    10,
    0,
    0_9_000_9_0_2,
    0_00_14_0_00,
    29,
    0,
    0_0_000_9_0_2,
    2_04_15_0_00,
    29,
    0,
    0_0_000_9_0_2,
    3_04_15_0_00,
    29,
    0,
    1_0_002_1_1_4,
    0_20_00_4_10,
    10111,
    0100100110,
    1_0_002_0_1_4,
    0_08_00_3_08,
    10111,
    01001001,
];

const ROWS: usize = 17;

fn request_of(number: u32, values: u32) -> Request {
    Request {
        wish: number / 1000000 % 10,
        groups: number / 1000 % 1000,
        phase: number / 100 % 10,
        choices: (number / 10 % 10) as usize,
        inputs: (number % 10) as usize,
        values,
    }
}

fn memories_of(number: u32) -> Memories {
    let (result, work) = match number / 10000000 {
        1 => (65600, 49200),
        2 => (65535, 49152),
        3 => (65536, 49151),
        _ => (65536, 49152),
    };
    Memories {
        result,
        work,
        trace: (number / 100000 % 100) as usize,
    }
}

// How many steps there are, or the refusal.
fn answer_of(number: u32) -> Result<u32, Refusal> {
    match number / 1000 % 100 {
        0 => Ok(number / 100 % 10),
        number => Err(Refusal { number, place: 0 }),
    }
}

// The last `count` digits of a number, a byte each.
fn put_digits(bytes: &mut [u8], count: usize, number: u32) {
    let mut more = number;
    for at in (0..count).rev() {
        put(bytes, at, (more % 10) as u8);
        more /= 10;
    }
}

fn trace(
    file: &[u8],
    asked: Request,
    values: &[u8],
    memories: Memories,
    res: &mut [u8],
    work: &mut [u8],
    left: &mut [u8],
) -> Result<u32, Refusal> {
    let choices = first(values, asked.choices);
    let inputs = first(rest(values, asked.choices), asked.inputs);
    let result_end = memories.result.min(res.len());
    let work_end = memories.work.min(work.len());
    let left_end = memories.trace.min(left.len());
    trace::trace(
        file,
        asked.wish,
        asked.groups,
        asked.phase,
        choices,
        inputs,
        &mut res[..result_end],
        &mut work[..work_end],
        &mut left[..left_end],
    )
    .map_err(|refusal| refused(refusal))
}

// Whether result and work are zero as far as they are lent.
fn trace_and_clear(
    file: &[u8],
    asked: Request,
    memories: Memories,
    right: Result<u32, Refusal>,
    left: &mut [u8],
) -> bool {
    let mut result = result_room();
    let mut work = work_room();
    let mut values = [0u8; TRACE_ROOM];
    let given = asked.choices.wrapping_add(asked.inputs);
    put_digits(&mut values, given, asked.values);
    let answer = trace(file, asked, &values, memories, &mut result, &mut work, left);
    answer == right
        && all_zero(first(&result, memories.result))
        && all_zero(first(&work, memories.work))
}

// A row of the table: the trace, and unchanged memory behind it.
fn try_known(file: &[u8], at: usize, tally: &mut [usize]) {
    let mut left = [FILL; TRACE_ROOM];
    let mut wanted = [FILL; TRACE_ROOM];
    let expected = known(at, 1);
    let asked = request_of(known(at, 0), known(at, 2));
    put_digits(&mut wanted, (expected % 100) as usize, known(at, 3));
    let memories = memories_of(expected);
    let right = trace_and_clear(file, asked, memories, answer_of(expected), &mut left);
    add(tally, crate::folds::TRACES, 1);
    if right && left == wanted {
        add(tally, crate::folds::TRACES_RIGHT, 1);
    }
}

// A number of a row of the table.
fn known(row: usize, column: usize) -> u32 {
    let at = 4 * (row % ROWS);
    get(&KNOWN, at + column % 4)
}

// If it is one of the design.
fn try_row(file: &[u8], design: u32, row: usize, tally: &mut [usize]) {
    if known(row, 0) / 10000000 == design {
        try_known(file, row, tally);
    }
}

// Those of the design.
pub fn try_traces(file: &[u8], design: u32, tally: &mut [usize]) {
    for row in 0..ROWS {
        try_row(file, design, row, tally);
    }
}
