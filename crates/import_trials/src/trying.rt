// A text imported by the product, and if it is given as it stands by the reference too; answer, result and work are compared with what is expected.
ghost use Rattle.std.specs.Prelude.{◌≡◌, length};

use import_answers::ImportRefusal;
use questions::Numbered;
use reference_questions::Refusal;
use reference_rows::rows::{Row, put_row};
use scripted_texts::script::Lent;
use scripted_texts::tell::{Seen, Tally};
use text::bytes::get;
use text::streams::Streams;

// What result and work hold before.
const RESULT_FILL: u8 = 170;

const WORK_FILL: u8 = 85;

const RESULT_ROOM: usize = 262656;

const WORK_ROOM: usize = 197120;

fn seen_of(answer: Result<u32, ImportRefusal>) -> Seen {
    match answer {
        Ok(rows) => Seen(0, 0, rows),
        Err(refusal) => Seen(refusal.number(), refusal.place(), 0),
    }
}

fn seen_again(answer: Result<u32, Refusal>) -> Seen {
    match answer {
        Ok(rows) => Seen(0, 0, rows),
        Err(refusal) => Seen(refusal.number, refusal.place, 0),
    }
}

// A result before, longer than what is lent.
pub fn result_room() -> [u8; 262656]
    ensures { 262656 ≡ length result }
{
    [RESULT_FILL; RESULT_ROOM]
}

// Work before, longer than what is lent.
fn work_room() -> [u8; 197120]
    ensures { 197120 ≡ length result }
{
    [WORK_FILL; WORK_ROOM]
}

// ---- what is expected

pub fn cells(kind: u8, a: u16, b: u16) -> Row {
    Row {
        kind,
        reset: 0,
        a,
        b,
        c: 0,
    }
}

pub fn zero(bytes: &mut [u8], end: usize) {
    let all = end.min(bytes.len());
    bytes[..all].fill(0);
}

fn number_as_u8(numbers: &[u32], at: usize) -> u8 {
    (get(numbers, at) % 256) as u8
}

fn number_as_u16(numbers: &[u32], at: usize) -> u16 {
    (get(numbers, at) % 65536) as u16
}

// A row for each five numbers, after row 0.
fn put_listed(numbers: &[u32], rows: usize, file: &mut [u8]) {
    for at in 1..rows {
        let from = 5 * ((at - 1) % 64);
        let row = Row {
            kind: number_as_u8(numbers, from),
            reset: number_as_u8(numbers, from + 1),
            a: number_as_u16(numbers, from + 2),
            b: number_as_u16(numbers, from + 3),
            c: number_as_u16(numbers, from + 4),
        };
        put_row(file, at, row);
    }
}

// Two numbers are a refusal's, others the rows'.
fn expected_of(numbers: &[u32], count: usize) -> Seen {
    let rows = (count % 64) as u32 / 5 + 1;
    if count == 2 {
        Seen(get(numbers, 0), get(numbers, 1), 0)
    } else {
        Seen(0, 0, rows)
    }
}

// The result that is expected: the rows' file and then zeros to the end of what is lent, or as it was.
fn put_expected(numbers: &[u32], expected: Seen, lent: Lent, res: &mut [u8]) {
    if expected.0 == 0 {
        let rows = expected.2 as usize;
        zero(res, lent.result);
        put_listed(numbers, rows, res);
        reference_writing::writer::close(res, rows);
    }
}

// Whether work is zero as far as it was lent, and no further.
fn work_right(work: &[u8], lent: usize) -> bool {
    let mut expected = work_room();
    zero(&mut expected, lent);
    work == expected.as_slice()
}

// ---- both

// The answer of the product, and whether it leaves what is expected.
#[derive(Clone, Copy)]
pub struct Tried {
    pub seen: Seen,
    pub left: bool,
}

pub fn import_lent(text: &[u8], lent: Lent, expected: &[u8]) -> Tried {
    let mut result = result_room();
    let mut work = work_room();
    let result_end = lent.result.min(result.len());
    let work_end = lent.work.min(work.len());
    let answer = import::import(text, &mut result[..result_end], &mut work[..work_end]);
    Tried {
        seen: seen_of(answer),
        left: work_right(&work, lent.work) && result.as_slice() == expected,
    }
}

fn import_again(text: &[u8], lent: Lent, expected: &[u8]) -> Tried {
    let mut result = result_room();
    let mut work = work_room();
    let mut tables = [0u32; 256];
    let mut lists = [0u32; 32];
    let result_end = lent.result.min(result.len());
    let work_end = lent.work.min(work.len());
    let answer = reference_import::importing::import(
        text,
        &mut tables,
        &mut lists,
        &mut result[..result_end],
        &mut work[..work_end],
    );
    Tried {
        seen: seen_again(answer),
        left: work_right(&work, lent.work) && result.as_slice() == expected,
    }
}

// text TEXT => ROWS, or NUMBER PLACE
pub fn try_text(
    rt: &impl Streams,
    line: &[u8],
    text: &[u8],
    numbers: &[u32],
    count: usize,
    lent: Lent,
    tally: Tally,
) -> Tally {
    let mut result = result_room();
    let expected = expected_of(numbers, count);
    put_expected(numbers, expected, lent, &mut result);
    let one = import_lent(text, lent, &result);
    let two = import_again(text, lent, &result);
    let after = scripted_texts::tell::judge(
        rt,
        line,
        b" by the product",
        one.seen,
        expected,
        one.left,
        tally,
    );
    scripted_texts::tell::judge(
        rt,
        line,
        b" by the reference",
        two.seen,
        expected,
        two.left,
        after,
    )
}
