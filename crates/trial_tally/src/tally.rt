// Counts of what was tried and what was found.
ghost use Rattle.std.specs.Prelude.{◌≡◌, length};

use text::out::{print_decimal, tell, write_all};
use text::streams::Streams;

// Folds by number: 0 for those done, else the refusal's. The other counts stand after them.
pub const FILES: usize = 24;

pub const FOLDS: usize = 25;

pub const CLOCKS: usize = 26;

pub const RUNS: usize = 27;

pub const STEPS: usize = 28;

// Files by what Count and Show made of them: counted, a block shown, no such block.
pub const COUNTED: usize = 29;

pub const SHOWN: usize = 30;

pub const PAST_END: usize = 31;

// Sorts by number, from here on as the folds above.
pub const SORTS: usize = 32;

// How many there are, and the runs and steps of the sorted files.
pub const ALL_SORTS: usize = 56;

pub const SORTED_RUNS: usize = 57;

pub const SORTED_STEPS: usize = 58;

// Imports by number, from here on as the folds above.
pub const IMPORTS: usize = 59;

// How many there are, how many of them are folded, and the runs and steps of the imported files.
pub const ALL_IMPORTS: usize = 85;

pub const IMPORTS_FOLDED: usize = 86;

pub const IMPORTED_RUNS: usize = 87;

pub const IMPORTED_STEPS: usize = 88;

// Long files by what Check says, from here on as the folds above; the blocks of them that are shown, or not there.
pub const LONGS: usize = 89;

pub const LONG_SHOWN: usize = 100;

pub const LONG_PAST_END: usize = 101;

// Folds and sorts of them by number.
pub const LONG_FOLDS: usize = 102;

pub const LONG_SORTS: usize = 119;

// Files with a changed head, and with two blocks exchanged, by what Check says.
pub const HEADS: usize = 143;

pub const EXCHANGES: usize = 154;

// Runs and sorts with work of several lengths by number.
pub const WORK_RUNS: usize = 165;

pub const WORK_SORTS: usize = 186;

// Imports of long texts by number.
pub const LONG_IMPORTS: usize = 210;

// Traces by number, from here on as the folds above; the steps compared; inputs in a phase, and X registers, that the fold did not keep.
pub const TRACES: usize = 236;

pub const TRACED_STEPS: usize = 265;

pub const INPUTS_DROPPED: usize = 266;

pub const CHOICES_DROPPED: usize = 267;

// Traces at the limits of 26, 27 and 28, from here on.
pub const TRACE_LIMITS: usize = 268;

// Differences, each kind by itself, from here on.
pub const CHECKS: usize = 282;

pub const ANSWERS: usize = 283;

pub const RESULTS: usize = 284;

pub const ENTRIES: usize = 285;

pub const FILE_RUNS: usize = 286;

pub const FOLD_RUNS: usize = 287;

pub const COUNTS: usize = 288;

pub const SHOWS: usize = 289;

pub const SORT_ANSWERS: usize = 290;

pub const SORT_RESULTS: usize = 291;

pub const SORT_WORKS: usize = 292;

pub const UNACCEPTED: usize = 293;

pub const UNSTABLE: usize = 294;

pub const SORT_RUNS: usize = 295;

pub const IMPORT_ANSWERS: usize = 296;

pub const IMPORT_RESULTS: usize = 297;

pub const IMPORT_WORKS: usize = 298;

pub const IMPORT_UNACCEPTED: usize = 299;

pub const IMPORT_UNSTABLE: usize = 300;

pub const IMPORT_RUNS: usize = 301;

pub const IMPORT_FOLDS: usize = 302;

pub const RUN_ANSWERS: usize = 303;

pub const RUN_RESULTS: usize = 304;

pub const RUN_WORKS: usize = 305;

pub const TRACE_ANSWERS: usize = 306;

pub const TRACE_BYTES: usize = 307;

pub const TRACE_RESULTS: usize = 308;

pub const TRACE_WORKS: usize = 309;

pub const TRACE_RUNS: usize = 310;

// How many counts there are.
pub const SLOTS: usize = 311;

// A tally of nothing.
pub fn fresh() -> [u64; SLOTS]
    ensures { 311 ≡ length result }
{
    [0; SLOTS]
}

pub fn count(tally: &[u64], at: usize) -> u64 {
    text::bytes::get(tally, at)
}

fn add_count(tally: &mut [u64], at: usize, more: u64) {
    if at < tally.len() {
        tally[at] = tally[at].wrapping_add(more);
    }
}

pub fn add(tally: &mut [u64], at: usize, more: usize) {
    add_count(tally, at, more as u64);
}

// So many counts of another tally, from `from` on, are added to those from `to` on.
pub fn take(own: &[u64], from: usize, size: usize, tally: &mut [u64], to: usize) {
    for i in 0..size {
        let more = count(own, from.wrapping_add(i));
        add_count(tally, to.wrapping_add(i), more);
    }
}

pub fn take_differences(own: &[u64], tally: &mut [u64]) {
    take(own, CHECKS, SLOTS - CHECKS, tally, CHECKS);
}

pub fn print(rt: &impl Streams, text: &[u8], number: u64) {
    write_all(rt, 1, text);
    print_decimal(rt, 1, number);
}

// One more, if that holds.
pub fn add_if(tally: &mut [u64], at: usize, holds: bool) {
    if holds {
        add(tally, at, 1);
    }
}

// Two that should be the same: a difference is counted under its kind.
pub fn hold(tally: &mut [u64], same: bool, kind: usize) {
    add_if(tally, kind, !same);
}

fn sum_of(tally: &[u64], start: usize, end: usize) -> u64 {
    let mut sum: u64 = 0;
    for at in start..end {
        sum = sum.wrapping_add(count(tally, at));
    }
    sum
}

pub fn differences(tally: &[u64]) -> u64 {
    sum_of(tally, CHECKS, SLOTS)
}

fn print_count(rt: &impl Streams, tally: &[u64], text: &[u8], at: usize) {
    print(rt, text, count(tally, at));
}

// The refusals with numbers from `start` on and before `end`; those of number 0 are counted at `base`.
fn print_refusals(rt: &impl Streams, tally: &[u64], base: usize, start: usize, end: usize) {
    for number in start..end {
        let at = base.wrapping_add(number);
        print(rt, b"  refused ", number as u64);
        print(rt, b": ", count(tally, at));
        write_all(rt, 1, b"\n");
    }
}

fn print_files(rt: &impl Streams, tally: &[u64]) {
    print_count(rt, tally, b"files ", FILES);
    print_count(rt, tally, b"\n  counted: ", COUNTED);
    print_count(rt, tally, b"\n  shown a block: ", SHOWN);
    print_count(rt, tally, b"\n  refused 21: ", PAST_END);
}

fn print_folds(rt: &impl Streams, tally: &[u64]) {
    print_count(rt, tally, b"\nfolds ", FOLDS);
    print_count(rt, tally, b"\n  done: ", 0);
    write_all(rt, 1, b"\n");
    print_refusals(rt, tally, 0, 1, 17);
}

fn print_runs(rt: &impl Streams, tally: &[u64]) {
    print_count(rt, tally, b"clock entries compared ", CLOCKS);
    print_count(rt, tally, b"\nruns of file and fold side by side ", RUNS);
    print_count(rt, tally, b"\nsteps compared ", STEPS);
}

fn print_sorts(rt: &impl Streams, tally: &[u64]) {
    print_count(rt, tally, b"\nsorts ", ALL_SORTS);
    print_count(rt, tally, b"\n  done: ", SORTS);
    write_all(rt, 1, b"\n");
    print_refusals(rt, tally, SORTS, 1, 11);
    print_refusals(rt, tally, SORTS, 22, 24);
    print_count(rt, tally, b"runs of file and sorted file ", SORTED_RUNS);
    print_count(rt, tally, b"\nsteps compared ", SORTED_STEPS);
}

fn print_imports(rt: &impl Streams, tally: &[u64]) {
    print_count(rt, tally, b"\nimports ", ALL_IMPORTS);
    print_count(rt, tally, b"\n  done: ", IMPORTS);
    write_all(rt, 1, b"\n");
    print_refusals(rt, tally, IMPORTS, 22, 25);
    print_count(rt, tally, b"runs of text and imported file ", IMPORTED_RUNS);
    print_count(rt, tally, b"\nsteps compared ", IMPORTED_STEPS);
    print_count(rt, tally, b"\nimported files folded ", IMPORTS_FOLDED);
}

// The counts from `start` on and before `end` together.
fn print_sum(rt: &impl Streams, tally: &[u64], text: &[u8], start: usize, end: usize) {
    print(rt, text, sum_of(tally, start, end));
}

fn print_long_imports(rt: &impl Streams, tally: &[u64]) {
    print_sum(rt, tally, b"\nimports of long texts ", LONG_IMPORTS, TRACES);
    print_count(rt, tally, b"\n  done: ", LONG_IMPORTS);
    write_all(rt, 1, b"\n");
    print_refusals(rt, tally, LONG_IMPORTS, 22, 26);
}

fn print_long_files(rt: &impl Streams, tally: &[u64]) {
    print_sum(rt, tally, b"long files ", LONGS, LONG_SHOWN);
    print_count(rt, tally, b"\n  counted: ", LONGS);
    print_count(rt, tally, b"\n  refused 1: ", LONGS + 1);
    print_count(rt, tally, b"\n  blocks shown: ", LONG_SHOWN);
    print_count(rt, tally, b"\n  refused 21: ", LONG_PAST_END);
    print_sum(rt, tally, b"\nfolds of long files ", LONG_FOLDS, LONG_SORTS);
    print_count(rt, tally, b"\n  refused 1: ", LONG_FOLDS + 1);
    print_count(rt, tally, b"\n  refused 11: ", LONG_FOLDS + 11);
}

fn print_long_sorts(rt: &impl Streams, tally: &[u64]) {
    print_sum(rt, tally, b"\nsorts of long files ", LONG_SORTS, HEADS);
    print_count(rt, tally, b"\n  done: ", LONG_SORTS);
    print_count(rt, tally, b"\n  refused 22: ", LONG_SORTS + 22);
    print_sum(
        rt,
        tally,
        b"\n  refused 1 to 10: ",
        LONG_SORTS + 1,
        LONG_SORTS + 11,
    );
    print_count(rt, tally, b"\n  refused 23: ", LONG_SORTS + 23);
}

fn print_damaged(rt: &impl Streams, tally: &[u64]) {
    print_sum(rt, tally, b"\nheads changed ", HEADS, EXCHANGES);
    print_count(rt, tally, b"\n  accepted: ", HEADS);
    print_count(rt, tally, b"\n  refused 3: ", HEADS + 3);
    print_sum(rt, tally, b"\nblocks exchanged ", EXCHANGES, WORK_RUNS);
    print_count(rt, tally, b"\n  refused 3: ", EXCHANGES + 3);
}

fn print_works(rt: &impl Streams, tally: &[u64]) {
    print_sum(
        rt,
        tally,
        b"\nruns with work of four lengths ",
        WORK_RUNS,
        WORK_SORTS,
    );
    print_count(rt, tally, b"\n  done: ", WORK_RUNS);
    print_count(rt, tally, b"\n  refused 20: ", WORK_RUNS + 20);
    print_sum(
        rt,
        tally,
        b"\nsorts with work of four lengths ",
        WORK_SORTS,
        LONG_IMPORTS,
    );
    print_count(rt, tally, b"\n  done: ", WORK_SORTS);
    print_count(rt, tally, b"\n  refused 23: ", WORK_SORTS + 23);
}

// Numbers as they stand in the tally from `at` on.
fn six(tally: &[u64], at: usize) -> [usize; 6] {
    let base = at % SLOTS;
    [
        count(tally, base) as usize,
        count(tally, base + 1) as usize,
        count(tally, base + 2) as usize,
        count(tally, base + 3) as usize,
        count(tally, base + 4) as usize,
        count(tally, base + 5) as usize,
    ]
}

fn print_traces(rt: &impl Streams, tally: &[u64]) {
    print_sum(rt, tally, b"\ntraces ", TRACES, TRACED_STEPS);
    print_count(rt, tally, b"\n  done: ", TRACES);
    print_sum(rt, tally, b"\n  refused 1 to 10: ", TRACES + 1, TRACES + 11);
    write_all(rt, 1, b"\n");
    print_refusals(rt, tally, TRACES, 11, 17);
    print_refusals(rt, tally, TRACES, 26, 29);
    tell(
        rt,
        1,
        b"steps compared #\n  inputs not kept: #\n  choices not kept: #\n",
        six(tally, TRACED_STEPS),
    );
}

// Those done, and those refused just over a limit.
fn print_trace_limits(rt: &impl Streams, tally: &[u64]) {
    tell(
        rt,
        1,
        b"  done with 1 group: #, with 512: #; refused with none: #, with 513: #; ",
        six(tally, TRACE_LIMITS),
    );
    tell(
        rt,
        1,
        b"done up to phase 0: #, up to N - 1: #; refused up to N: #\n",
        six(tally, TRACE_LIMITS + 4),
    );
    tell(
        rt,
        1,
        b"  refused with a choice more: #, less: #, a value more: #, less: #, one above 1: #\n",
        six(tally, TRACE_LIMITS + 7),
    );
    tell(
        rt,
        1,
        b"  done in as much memory as is asked for: #; refused a byte less: #",
        six(tally, TRACE_LIMITS + 12),
    );
}

fn print_file_differences(rt: &impl Streams, tally: &[u64]) {
    print(rt, b"\ndifferences ", differences(tally));
    print_count(rt, tally, b"\n  in Check: ", CHECKS);
    print_count(rt, tally, b"\n  in Count: ", COUNTS);
    print_count(rt, tally, b"\n  in Show: ", SHOWS);
}

fn print_fold_differences(rt: &impl Streams, tally: &[u64]) {
    print_count(rt, tally, b"\n  in Fold's answer: ", ANSWERS);
    print_count(rt, tally, b"\n  in the result's bytes: ", RESULTS);
    print_count(rt, tally, b"\n  in the clock entries: ", ENTRIES);
}

fn print_run_differences(rt: &impl Streams, tally: &[u64]) {
    print_count(rt, tally, b"\n  in runs of the file, by both: ", FILE_RUNS);
    print_count(
        rt,
        tally,
        b"\n  in runs of the fold, beside the file: ",
        FOLD_RUNS,
    );
    print_count(rt, tally, b"\n  in Run's answer: ", RUN_ANSWERS);
    print_count(rt, tally, b"\n  in what Run shows: ", RUN_RESULTS);
    print_count(rt, tally, b"\n  in work after Run: ", RUN_WORKS);
}

fn print_sort_differences(rt: &impl Streams, tally: &[u64]) {
    print_count(rt, tally, b"\n  in Sort's answer: ", SORT_ANSWERS);
    print_count(rt, tally, b"\n  in the sorted file's bytes: ", SORT_RESULTS);
    print_count(rt, tally, b"\n  in work after Sort: ", SORT_WORKS);
    print_count(rt, tally, b"\n  in Check of the sorted file: ", UNACCEPTED);
    print_count(
        rt,
        tally,
        b"\n  in the sorted file sorted again: ",
        UNSTABLE,
    );
    print_count(
        rt,
        tally,
        b"\n  in runs of the sorted file, beside the file: ",
        SORT_RUNS,
    );
}

fn print_import_differences(rt: &impl Streams, tally: &[u64]) {
    print_count(rt, tally, b"\n  in Import's answer: ", IMPORT_ANSWERS);
    print_count(
        rt,
        tally,
        b"\n  in the imported file's bytes: ",
        IMPORT_RESULTS,
    );
    print_count(rt, tally, b"\n  in work after Import: ", IMPORT_WORKS);
    print_count(
        rt,
        tally,
        b"\n  in Check of the imported file: ",
        IMPORT_UNACCEPTED,
    );
    print_count(
        rt,
        tally,
        b"\n  in the imported file sorted: ",
        IMPORT_UNSTABLE,
    );
    print_count(
        rt,
        tally,
        b"\n  in runs of the imported file, beside the text: ",
        IMPORT_RUNS,
    );
    print_count(
        rt,
        tally,
        b"\n  in folds of the imported file: ",
        IMPORT_FOLDS,
    );
}

fn print_trace_differences(rt: &impl Streams, tally: &[u64]) {
    tell(
        rt,
        1,
        b"\n  in Trace's answer: #\n  in its trace: #\n  in its result: #\n  in its work: #\n  in runs of the file on the trace, beside the fold: #\n",
        six(tally, TRACE_ANSWERS),
    );
}

pub fn print_all(rt: &impl Streams, tally: &[u64]) {
    print_files(rt, tally);
    print_folds(rt, tally);
    print_runs(rt, tally);
    print_sorts(rt, tally);
    print_imports(rt, tally);
    print_long_imports(rt, tally);
    print_long_files(rt, tally);
    print_long_sorts(rt, tally);
    print_damaged(rt, tally);
    print_works(rt, tally);
    print_traces(rt, tally);
    print_trace_limits(rt, tally);
    print_file_differences(rt, tally);
    print_fold_differences(rt, tally);
    print_run_differences(rt, tally);
    print_sort_differences(rt, tally);
    print_import_differences(rt, tally);
    print_trace_differences(rt, tally);
}
