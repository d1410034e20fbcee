// Import of texts by chance, by the product and by the reference: answers, every byte of result and work. What is imported is checked, sorted again, run beside the text's own equations, and folded if it is small.
ghost use Rattle.std.specs.Prelude.{◌<◌};

use reference_questions::Refusal;
use text::bytes::first;
use trial_pieces::dice::lent_of;
use trial_pieces::pieces::plus;
use trial_runs::{number_of, refused};
use trial_tally::rooms;
use trial_tally::rooms::{LONG_LIST, LONG_PAIRS, LONG_TABLE, SHORT_LIST, SHORT_PAIRS, SHORT_TABLE};
use trial_tally::tally::{add, hold};
use trial_uses::Plan;

const SMALL: usize = 4000;

const MIDDLE: usize = 400;

const LONG: usize = 28;

// The long texts have a seed of their own.
const SEED: u64 = 7640891576956012809;

const LONG_SEED: u64 = 2685821657736338717;

const LEAST_RESULT: usize = 262144;

const LEAST_WORK: usize = 196608;

// ---- both

// What both answered is counted and compared.
fn compare_answers(answer: Result<u32, Refusal>, right: Result<u32, Refusal>, tally: &mut [u64]) {
    add(tally, trial_tally::tally::ALL_IMPORTS, 1);
    add(
        tally,
        plus(trial_tally::tally::IMPORTS, number_of(right) as usize),
        1,
    );
    hold(tally, answer == right, trial_tally::tally::IMPORT_ANSWERS);
}

// Import by the reference, with a table and a list of these lengths.
fn import_in<const TABLE: usize, const LIST: usize>(
    text: &[u8],
    res: &mut [u8],
    work: &mut [u8],
) -> Result<u32, Refusal>
    requires table { TABLE < 1048576 }
    requires list { LIST < 1048576 }
{
    let mut table = [0u32; TABLE];
    let mut list = [0u32; LIST];
    reference_import::importing::import(text, &mut table, &mut list, res, work)
}

// The same with a table for all lines of the text.
fn import_any(text: &[u8], res: &mut [u8], work: &mut [u8]) -> Result<u32, Refusal> {
    if rooms::is_short(text) {
        import_in::<SHORT_TABLE, SHORT_LIST>(text, res, work)
    } else {
        import_in::<LONG_TABLE, LONG_LIST>(text, res, work)
    }
}

// The same in as much memory.
fn import_lent(
    text: &[u8],
    result_end: usize,
    work_end: usize,
    res: &mut [u8],
    work: &mut [u8],
) -> Result<u32, Refusal> {
    let written = result_end.min(res.len());
    let used = work_end.min(work.len());
    import_any(text, &mut res[..written], &mut work[..used])
}

// The same in memories that are filled alike; what is left in them is compared.
fn import_again(
    text: &[u8],
    result_end: usize,
    work_end: usize,
    res: &[u8],
    work: &[u8],
    tally: &mut [u64],
) -> Result<u32, Refusal> {
    let mut expected = rooms::long_filled();
    let mut cleared = rooms::long_filled();
    let right = import_lent(text, result_end, work_end, &mut expected, &mut cleared);
    hold(
        tally,
        res == expected.as_slice(),
        trial_tally::tally::IMPORT_RESULTS,
    );
    hold(
        tally,
        work == cleared.as_slice(),
        trial_tally::tally::IMPORT_WORKS,
    );
    right
}

fn import_both(
    text: &[u8],
    seed: &mut u64,
    res: &mut [u8],
    tally: &mut [u64],
) -> Result<u32, Refusal> {
    let mut work = rooms::long_filled();
    let result_end = lent_of(seed, LEAST_RESULT).min(res.len());
    let work_end = lent_of(seed, LEAST_WORK).min(work.len());
    let answer = import::import(text, &mut res[..result_end], &mut work[..work_end]).map_err(
        |refusal| refused(refusal),
    );
    let right = import_again(text, result_end, work_end, res, &work, tally);
    compare_answers(answer, right, tally);
    right
}

// ---- what is imported

// Folded with wish 0, as the other files are; its differences count as one.
fn try_fold(file: &[u8], seed: &mut u64, tally: &mut [u64]) {
    let mut own = trial_tally::tally::fresh();
    trial_operations::folds::try_wish(file, 0, seed, &mut own);
    let done = trial_tally::tally::count(&own, 0);
    add(
        tally,
        trial_tally::tally::IMPORTS_FOLDED,
        (done % 2) as usize,
    );
    hold(
        tally,
        trial_tally::tally::differences(&own) == 0,
        trial_tally::tally::IMPORT_FOLDS,
    );
}

fn try_imported(text: &[u8], file: &[u8], seed: &mut u64, tally: &mut [u64]) {
    let accepted = trial_operations::files::check_right(file, Ok(()));
    hold(tally, accepted, trial_tally::tally::IMPORT_UNACCEPTED);
    hold(
        tally,
        trial_operations::sorts::is_stable(file),
        trial_tally::tally::IMPORT_UNSTABLE,
    );
    trial_runs::try_text(text, file, seed, tally);
    if file.len() <= 1024 {
        try_fold(file, seed, tally);
    }
}

fn try_import(text: &[u8], seed: &mut u64, tally: &mut [u64]) {
    let mut result = rooms::long_filled();
    if let Ok(rows) = import_both(text, seed, &mut result, tally) {
        let size = reference_rows::rows::length_of(rows);
        try_imported(text, first(&result, size), seed, tally);
    }
}

// ---- texts

// A text made with lists of these lengths; the answer is its length.
fn put_in<const LIST: usize, const PAIRS: usize>(
    seed: &mut u64,
    plan: Plan,
    text: &mut [u8],
) -> usize
    requires list { LIST < 1048576 }
    requires pairs { PAIRS < 1048576 }
{
    let mut names = [0u32; LIST];
    let mut order = [0u32; LIST];
    let mut uses = [0u32; PAIRS];
    trial_texts::put_text(seed, plan, &mut names, &mut order, &mut uses, text)
}

fn put_text(seed: &mut u64, plan: Plan, text: &mut [u8]) -> usize {
    if trial_uses::rows_of(plan) < SHORT_LIST {
        put_in::<SHORT_LIST, SHORT_PAIRS>(seed, plan, text)
    } else {
        put_in::<LONG_LIST, LONG_PAIRS>(seed, plan, text)
    }
}

fn try_damaged(seed: &mut u64, text: &mut [u8], size: usize, tally: &mut [u64]) {
    let left = trial_texts::damage(seed, text, size);
    try_import(first(text, left), seed, tally);
}

// A text by this plan, and if that is asked for the same damaged.
fn try_plan(seed: &mut u64, plan: Plan, damaged: bool, tally: &mut [u64]) {
    let mut text = rooms::text_zeros();
    let size = put_text(seed, plan, &mut text);
    try_import(first(&text, size), seed, tally);
    if damaged {
        try_damaged(seed, &mut text, size, tally);
    }
}

fn try_many(seed: &mut u64, count: usize, most: usize, tally: &mut [u64]) {
    for _ in 0..count {
        let plan = trial_texts::any_plan(seed, most);
        let damaged = trial_pieces::dice::chance(seed, 2);
        try_plan(seed, plan, damaged, tally);
    }
}

// The most rows of a file, one less and one more; the most that Run and Sort take with little work, and one more; half of the most and some more; and so many that their names just fill the product's room for them.
fn long_rows(seed: &mut u64, i: usize) -> usize {
    let near = trial_pieces::dice::roll(seed, 8);
    match i % 7 {
        0 => 32255,
        1 => 32256,
        2 => 32257,
        3 => 8064,
        4 => 8065,
        5 => plus(16384, near),
        _ => plus(49153, near),
    }
}

// What is wrong in a long text: nothing, a name twice, one undefined, or a loop, by turns.
fn long_fault(i: usize) -> usize {
    match i / 7 % 4 {
        0 => 0,
        1 => trial_uses::TWICE,
        2 => trial_uses::UNDEFINED,
        _ => trial_uses::LOOP,
    }
}

fn try_long(seed: &mut u64, tally: &mut [u64]) {
    for i in 0..LONG {
        let rows = long_rows(seed, i);
        let plan = trial_texts::long_plan(seed, rows, long_fault(i));
        try_plan(seed, plan, false, tally);
    }
}

// The long texts are counted apart.
fn try_all_long(tally: &mut [u64]) {
    let mut own = trial_tally::tally::fresh();
    let mut seed = LONG_SEED;
    try_long(&mut seed, &mut own);
    trial_tally::tally::take(
        &own,
        trial_tally::tally::IMPORTS,
        26,
        tally,
        trial_tally::tally::LONG_IMPORTS,
    );
    trial_tally::tally::take_differences(&own, tally);
}

pub fn try_all(tally: &mut [u64]) {
    let mut seed = SEED;
    try_many(&mut seed, SMALL, 6, tally);
    try_many(&mut seed, MIDDLE, 200, tally);
    try_all_long(tally);
}
