// Sort of files whose nodes stand in any order, by the product and by the reference: answers, every byte of result and work. What is sorted is checked, sorted again, and run beside the file.
use crate::files::{numbered, of_file};
use reference_questions::Refusal;
use reference_rows::rows::{rows_of, work_for};
use sort_answers::SortRefusal;
use text::bytes::first;
use trial_pieces::dice::lent_of;
use trial_pieces::pieces::plus;
use trial_runs::number_of;
use trial_tally::rooms;
use trial_tally::tally::{add, hold};

// So much of the result behind the file is compared, whether it is lent or not.
const BEHIND: usize = 64;

fn of_refusal(refusal: SortRefusal) -> Refusal {
    match refusal {
        SortRefusal::File(file) => of_file(file),
        SortRefusal::Memory => numbered(23, 0),
        SortRefusal::Loop { row } => numbered(22, row),
    }
}

// What both answered is counted and compared.
fn compare_answers(answer: Result<u32, Refusal>, right: Result<u32, Refusal>, tally: &mut [u64]) {
    add(tally, trial_tally::tally::ALL_SORTS, 1);
    add(
        tally,
        plus(trial_tally::tally::SORTS, number_of(right) as usize),
        1,
    );
    hold(tally, answer == right, trial_tally::tally::SORT_ANSWERS);
}

// Sort by the reference, in memories that are filled alike, and of which as much is lent; what is left in them is compared.
fn sort_again(
    file: &[u8],
    result_end: usize,
    work_end: usize,
    res: &[u8],
    work: &[u8],
    tally: &mut [u64],
) -> Result<u32, Refusal> {
    let mut expected = rooms::long_filled();
    let mut cleared = rooms::short_filled();
    let written = result_end.min(expected.len());
    let used = work_end.min(cleared.len());
    let right = reference_import::sorting::sort(
        file,
        &mut expected[..written],
        &mut cleared[..used],
    );
    let left = first(&expected, res.len());
    hold(tally, res == left, trial_tally::tally::SORT_RESULTS);
    hold(
        tally,
        work == cleared.as_slice(),
        trial_tally::tally::SORT_WORKS,
    );
    right
}

// Sort by both with this much lent.
fn sort_lent(
    file: &[u8],
    result_lent: usize,
    work_lent: usize,
    res: &mut [u8],
    tally: &mut [u64],
) -> Result<u32, Refusal> {
    let mut work = rooms::short_filled();
    let result_end = result_lent.min(res.len());
    let work_end = work_lent.min(work.len());
    let answer = sort::sort(file, &mut res[..result_end], &mut work[..work_end]).map_err(
        |refusal| of_refusal(refusal),
    );
    let right = sort_again(file, result_end, work_end, res, &work, tally);
    compare_answers(answer, right, tally);
    right
}

fn sort_both(
    file: &[u8],
    seed: &mut u64,
    res: &mut [u8],
    tally: &mut [u64],
) -> Result<u32, Refusal> {
    let result_lent = lent_of(seed, file.len());
    let work_lent = lent_of(seed, work_for(rows_of(file)));
    sort_lent(file, result_lent, work_lent, res, tally)
}

// Sort with this much work.
pub fn try_work(file: &[u8], work_lent: usize, tally: &mut [u64]) {
    let mut result = rooms::long_filled();
    let _ = sort_lent(file, file.len(), work_lent, &mut result, tally);
}

// ---- what is sorted

pub fn is_stable(sorted: &[u8]) -> bool {
    let mut result = rooms::long_filled();
    let mut work = rooms::short_filled();
    let end = sorted.len().min(result.len());
    let _ = sort::sort(sorted, &mut result[..end], &mut work);
    first(&result, end) == sorted
}

fn try_sorted(file: &[u8], sorted: &[u8], seed: &mut u64, tally: &mut [u64]) {
    let accepted = crate::files::check_right(sorted, Ok(()));
    hold(tally, accepted, trial_tally::tally::UNACCEPTED);
    hold(tally, is_stable(sorted), trial_tally::tally::UNSTABLE);
    trial_runs::try_sorted(file, sorted, seed, tally);
}

pub fn try_sort(file: &[u8], seed: &mut u64, tally: &mut [u64]) {
    let mut result = rooms::long_filled();
    let end = plus(file.len(), BEHIND).min(result.len());
    if sort_both(file, seed, &mut result[..end], tally).is_ok() {
        try_sorted(file, first(&result, file.len()), seed, tally);
    }
}

// The file with its nodes in any order, and then the same damaged; no seed is moved.
pub fn try_mixed(file: &[u8], seed: u64, tally: &mut [u64]) {
    let mut mixed = rooms::long_zeros();
    let mut own = seed;
    let size = file.len();
    trial_mixing::put_mixed(file, &mut own, &mut mixed);
    try_sort(first(&mixed, size), &mut own, tally);
    let left = trial_netlists::damage::damage(&mut mixed, &mut own, size);
    try_sort(first(&mixed, left), &mut own, tally);
}
