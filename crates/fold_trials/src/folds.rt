// A fold by the public operation and by the reference: answers, every byte of result and work, every entry of the list.
ghost use Rattle.std.specs.Prelude.{◌≡◌, ◌<◌, length};

use crate::listed::{LIST, fillers, fold_listed, put_clocks};
use reference_fold::{Folded, Lent};
use reference_questions::Refusal;
use text::bytes::{first, get};
use text::out::tell;
use text::streams::Streams;

// What result and work hold before.
pub const FILL: u8 = 170;

// The most that is lent of each; of the list, four numbers for each entry.
const RESULT_ROOM: usize = 65600;

const WORK_ROOM: usize = 49200;

const NUMBERS: usize = 1040;

// Folds by number: 0 for those done, else the refusal's. Behind them the entries set, and the differences, each kind by itself.
const SET: usize = 17;

const ANSWERS: usize = 18;

const RESULTS: usize = 19;

const WORKS: usize = 20;

const LISTS: usize = 21;

// Traces with known answers, and those that are so.
pub const TRACES: usize = 22;

pub const TRACES_RIGHT: usize = 23;

pub const COUNTS: usize = 24;

pub fn add(tally: &mut [usize], at: usize, more: usize) {
    if at < tally.len() {
        tally[at] = tally[at].wrapping_add(more);
    }
}

// Two that should be the same.
fn hold(tally: &mut [usize], same: bool, kind: usize) {
    if !same {
        add(tally, kind, 1);
    }
}

pub fn all_zero(bytes: &[u8]) -> bool {
    bytes.iter().all(|&byte| byte == 0)
}

// How many of the numbers 0, `step`, twice `step` and so on are others in `y`.
fn different(x: &[u32], y: &[u32], step: usize) -> usize
    requires { 0 < step }
{
    x.iter()
        .enumerate()
        .filter(|&(i, &number)| i % step == 0 && number != get(y, i))
        .count()
}

// The public operation with so much of each memory.
fn fold_lent(
    file: &[u8],
    wish: u32,
    lent: Lent,
    res: &mut [u8],
    work: &mut [u8],
    list: &mut [u32],
) -> Result<Folded, Refusal> {
    let entries = lent.clocks.min(LIST);
    let result_end = lent.result.min(res.len());
    let work_end = lent.work.min(work.len());
    fold_listed(
        file,
        wish,
        entries,
        &mut res[..result_end],
        &mut work[..work_end],
        list,
    )
}

fn hold_all(tally: &mut [usize], answer: bool, res: bool, list: bool) {
    hold(tally, answer, ANSWERS);
    hold(tally, res, RESULTS);
    hold(tally, list, LISTS);
}

// The most that is lent of result and work, filled.
pub fn result_room() -> [u8; 65600]
    ensures { 65600 ≡ length result }
{
    [FILL; RESULT_ROOM]
}

pub fn work_room() -> [u8; 49200]
    ensures { 49200 ≡ length result }
{
    [FILL; WORK_ROOM]
}

// What it left is held against what the reference makes of memories that are filled alike.
fn compare(
    file: &[u8],
    wish: u32,
    lent: Lent,
    answer: Result<Folded, Refusal>,
    res: &[u8],
    list: &[u32],
    tally: &mut [usize],
) {
    let mut right_result = result_room();
    let mut right_list = [0u32; NUMBERS];
    put_clocks(&mut right_list, fillers());
    let set = different(list, &right_list, 4);
    let right = reference_fold::fold(file, wish, lent, &mut right_result, &mut right_list);
    let size = lent.result;
    let same_result = first(res, size) == first(&right_result, size);
    let same_list = list == right_list.as_slice();
    let number = match answer {
        Ok(_) => 0,
        Err(refusal) => refusal.number,
    };
    add(tally, number as usize, 1);
    add(tally, SET, set);
    hold_all(tally, answer == right, same_result, same_list);
}

pub fn try_fold(file: &[u8], wish: u32, lent: Lent, tally: &mut [usize]) {
    let mut result = result_room();
    let mut work = work_room();
    let mut list = [0u32; NUMBERS];
    let answer = fold_lent(file, wish, lent, &mut result, &mut work, &mut list);
    hold(tally, all_zero(first(&work, lent.work)), WORKS);
    compare(file, wish, lent, answer, &result, &list, tally);
}

pub fn print(rt: &impl Streams, counts: [usize; COUNTS]) {
    tell(
        rt,
        1,
        b"folds done #, refused with 1 #, with 2 #, with 11 #, ",
        [counts[0], counts[1], counts[2], counts[11], 0, 0],
    );
    tell(
        rt,
        1,
        b"with 14 #, with 15 #, with 16 #\n",
        [counts[14], counts[15], counts[16], 0, 0, 0],
    );
    tell(
        rt,
        1,
        b"clock entries set #\ndifferences: # in answers, # in results, # in works, # in clock lists\n",
        [
            counts[SET],
            counts[ANSWERS],
            counts[RESULTS],
            counts[WORKS],
            counts[LISTS],
            0,
        ],
    );
    tell(
        rt,
        1,
        b"traces with known answers #, right #\n",
        [counts[TRACES], counts[TRACES_RIGHT], 0, 0, 0, 0],
    );
}
