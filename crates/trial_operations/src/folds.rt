// Fold of a file by the product and by the reference: refusals, answers, every byte of the result, clock entries.
use crate::files::{numbered, of_file};
use fold_answers::FoldNumbers;
use fold_memory::ENTRIES;
use fold_refusals::FoldRefusal;
use reference_fold::{Folded, Lent};
use reference_questions::Refusal;
use reference_rows::rows::length_of;
use text::bytes::{first, get};
use trial_runs::number_of;
use trial_tally::rooms;
use trial_tally::tally::{add, hold};

// What is lent.
const RESULT_LENT: usize = 65600;

const WORK_LENT: usize = 49152;

fn lent_of(clocks: usize) -> Lent {
    Lent {
        result: RESULT_LENT,
        work: WORK_LENT,
        clocks,
    }
}

fn of_refusal(refusal: FoldRefusal) -> Refusal {
    match refusal {
        FoldRefusal::File(file) => of_file(file),
        FoldRefusal::Rows => numbered(11, 0),
        FoldRefusal::Registers => numbered(12, 0),
        FoldRefusal::Phase { row } => numbered(13, row),
        FoldRefusal::Wish => numbered(14, 0),
        FoldRefusal::Memory => numbered(15, 0),
        FoldRefusal::NoLasso => numbered(16, 0),
    }
}

// The product's answer in the reference's form.
fn folded(numbers: FoldNumbers) -> Folded {
    Folded {
        stem: numbers.stem,
        cycle: numbers.cycle,
        phases: numbers.phases,
        used: numbers.used,
        before: numbers.before,
        after: numbers.after,
    }
}

// ---- clock entries

// The packed number of two bytes.
fn pair(work: &[u8], at: usize) -> u32 {
    let bytes = [get(work, at), get(work, trial_pieces::pieces::plus(at, 1))];
    u16::from_le_bytes(bytes).into()
}

fn same_entry(work: &[u8], list: &[u32], entry: usize) -> bool {
    let index = entry % 256;
    let at = ENTRIES + 8 * index;
    let from = 4 * index;
    pair(work, at) == get(list, from)
        && u32::from(get(work, at + 2)) == get(list, from + 1)
        && u32::from(get(work, at + 3)) == get(list, from + 2)
        && pair(work, at + 4) == get(list, from + 3)
        && pair(work, at + 6) == 0
}

fn same_entries(work: &[u8], list: &[u32], used: usize) -> bool {
    (0..used).all(|entry| same_entry(work, list, entry))
}

// ---- both

// What both answered is counted and compared.
fn compare_answers(
    answer: Result<Folded, Refusal>,
    right: Result<Folded, Refusal>,
    tally: &mut [u64],
) {
    add(tally, trial_tally::tally::FOLDS, 1);
    add(tally, number_of(right) as usize, 1);
    hold(tally, answer == right, trial_tally::tally::ANSWERS);
}

fn compare_entries(work: &[u8], list: &[u32], used: usize, tally: &mut [u64]) {
    add(tally, trial_tally::tally::CLOCKS, used);
    hold(
        tally,
        same_entries(work, list, used),
        trial_tally::tally::ENTRIES,
    );
}

fn fold(
    file: &[u8],
    wish: u32,
    clocks: usize,
    res: &mut [u8],
    work: &mut [u8],
) -> Result<Folded, Refusal> {
    match fold_core::fold_core(file, wish, res, work, clocks) {
        Ok(numbers) => Ok(folded(numbers)),
        Err(refusal) => Err(of_refusal(refusal)),
    }
}

// Fold by the reference in a result of its own, filled alike; the results' bytes are compared.
fn fold_again(
    file: &[u8],
    wish: u32,
    clocks: usize,
    res: &[u8],
    list: &mut [u32],
    tally: &mut [u64],
) -> Result<Folded, Refusal> {
    let mut expected = rooms::short_filled();
    let right = reference_fold::fold(file, wish, lent_of(clocks), &mut expected, list);
    hold(
        tally,
        res == expected.as_slice(),
        trial_tally::tally::RESULTS,
    );
    right
}

// Fold by both. The result is filled before, and so is the reference's: they show too what a refusal leaves.
pub fn try_fold(
    file: &[u8],
    wish: u32,
    clocks: usize,
    res: &mut [u8],
    tally: &mut [u64],
) -> Result<Folded, Refusal> {
    let mut work = rooms::fold_work();
    let mut list = [0u32; 1024];
    let answer = fold(file, wish, clocks, res, &mut work);
    let right = fold_again(file, wish, clocks, res, &mut list, tally);
    let used = match right {
        Ok(folded) => folded.used,
        Err(_) => 0,
    };
    compare_answers(answer, right, tally);
    compare_entries(&work, &list, used as usize, tally);
    answer
}

// The same where the result is of no further use.
pub fn try_alone(
    file: &[u8],
    wish: u32,
    clocks: usize,
    tally: &mut [u64],
) -> Result<Folded, Refusal> {
    let mut result = rooms::short_filled();
    try_fold(file, wish, clocks, &mut result, tally)
}

// A fold that is done is run beside its file.
pub fn try_wish(file: &[u8], wish: u32, seed: &mut u64, tally: &mut [u64]) {
    let mut result = rooms::short_filled();
    if let Ok(answer) = try_fold(file, wish, 256, &mut result, tally) {
        let fold = first(&result, length_of(answer.after));
        trial_runs::try_run(file, fold, answer.phases as usize, seed, tally);
    }
}
