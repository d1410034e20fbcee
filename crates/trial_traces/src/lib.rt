// Trace of a file by the product and by the reference: answers, every byte of trace, result and work. Then the file is run on the trace, and the fold on what was given, and the outputs are compared phase by phase.
#![tactic(auto)]

use reference_fold::{Folded, Lent};
use reference_questions::Refusal;
use reference_rows::rows::{count_kind, length_of, rows_of};
use text::bytes::{first, put, rest};
use trial_pieces::dice::{chance, lent_of, put_values, roll, roll_from};
use trial_pieces::pieces::plus;
use trial_runs::{Sizes, number_of, refused, times, unknown_in};
use trial_tally::tally::{add, add_if, hold};
use trial_tally::{rooms, tally};

// So much of a memory behind what is lent is compared too.
const BEHIND: usize = 16;

// A trace of 512 groups is asked for where it has room.
const MOST_VALUES: usize = 500;

// What is asked for, how many choices and input values are given, and what is lent.
#[derive(Clone, Copy)]
struct Asked {
    wish: u32,
    groups: u32,
    phase: u32,
    choices: usize,
    inputs: usize,
    result: usize,
    work: usize,
    left: usize,
}

// What the request asks for: the fold's X registers and their number of the file; of inputs likewise.
#[derive(Clone, Copy)]
struct Counted {
    phases: usize,
    chosen: usize,
    given: usize,
    unknown: usize,
    inputs: usize,
}

fn count_all(file: &[u8], fold: &[u8], phases: usize) -> Counted {
    Counted {
        phases,
        chosen: unknown_in(fold),
        given: count_kind(fold, rows_of(fold), 1),
        unknown: unknown_in(file),
        inputs: count_kind(file, rows_of(file), 1),
    }
}

// Of a file that is not folded.
fn nothing() -> Counted {
    Counted {
        phases: 1,
        chosen: 0,
        given: 0,
        unknown: 0,
        inputs: 0,
    }
}

// ---- what is asked by chance

fn number(x: usize) -> u32 {
    (x % 4294967296) as u32
}

fn any_wish(seed: &mut u64) -> u32 {
    let wish = roll(seed, 9);
    number(if chance(seed, 24) { 9 } else { wish })
}

// One to six groups, and at times as many as there may be, one more, or none.
fn any_groups(seed: &mut u64, counted: Counted) -> u32 {
    let some = roll_from(seed, 1, 6);
    let fits = times(counted.phases, counted.inputs) <= MOST_VALUES;
    let most = if fits { 512 } else { 1 };
    number(match roll(seed, 32) {
        0 => 0,
        1 | 2 => most,
        3 => 513,
        4 => 4294967295,
        _ => some,
    })
}

// A phase below N, often one at an end, and at times one past it.
fn any_phase(seed: &mut u64, phases: usize) -> u32 {
    let any = roll(seed, phases);
    number(match roll(seed, 32) {
        0 | 1 => phases,
        2 => plus(phases, roll(seed, 300)),
        3 => 4294967295,
        4 | 5 | 6 | 7 => 0,
        8 | 9 | 10 | 11 => phases.wrapping_sub(1),
        _ => any,
    })
}

// A list's length: at times one more, or one less where there is one.
fn any_length(seed: &mut u64, right: usize) -> usize {
    match roll(seed, 24) {
        0 => plus(right, 1),
        1 => right.saturating_sub(1),
        _ => right,
    }
}

fn steps_of(groups: u32, phase: u32, phases: usize) -> usize {
    let before = groups.wrapping_sub(1);
    let whole = times(before as usize, phases);
    plus(plus(whole, phase as usize), 1)
}

fn size_of(counted: Counted, steps: usize) -> usize {
    plus(counted.unknown, times(steps, counted.inputs))
}

fn any_asked(seed: &mut u64, wish: u32, counted: Counted) -> Asked {
    let groups = any_groups(seed, counted);
    let phase = any_phase(seed, counted.phases);
    let steps = steps_of(groups, phase, counted.phases);
    let size = size_of(counted, steps);
    Asked {
        wish,
        groups,
        phase,
        choices: any_length(seed, counted.chosen),
        inputs: any_length(seed, times(groups as usize, counted.given)),
        result: lent_of(seed, 65536),
        work: lent_of(seed, 49152),
        left: lent_of(seed, size),
    }
}

// Zeros and ones, and at times another byte among them.
fn put_any_values(values: &mut [u8], seed: &mut u64, size: usize) {
    let all = size.min(values.len());
    put_values(values, seed, all);
    let wrong = if chance(seed, 2) { 2 } else { 255 };
    if chance(seed, 16) {
        put(values, roll(seed, all), wrong);
    }
}

// ---- both

fn given_inputs(values: &[u8], asked: Asked) -> &[u8] {
    first(rest(values, asked.choices), asked.inputs)
}

// Trace by the product, or by the reference, in as much of each memory as is lent.
fn trace(
    file: &[u8],
    asked: Asked,
    values: &[u8],
    ours: bool,
    res: &mut [u8],
    work: &mut [u8],
    left: &mut [u8],
) -> Result<u32, Refusal> {
    let choices = first(values, asked.choices);
    let inputs = given_inputs(values, asked);
    let result_end = asked.result.min(res.len());
    let work_end = asked.work.min(work.len());
    let left_end = asked.left.min(left.len());
    let made = &mut res[..result_end];
    let used = &mut work[..work_end];
    let trace = &mut left[..left_end];
    if ours {
        trace::trace(
            file,
            asked.wish,
            asked.groups,
            asked.phase,
            choices,
            inputs,
            made,
            used,
            trace,
        )
        .map_err(|refusal| refused(refusal))
    } else {
        reference_trace::trace(
            file,
            asked.wish,
            asked.groups,
            asked.phase,
            choices,
            inputs,
            made,
            used,
            trace,
        )
    }
}

// What is lent of a memory, and some bytes behind it.
fn same_lent(x: &[u8], y: &[u8], lent: usize) -> bool {
    let size = plus(lent, BEHIND);
    first(x, size) == first(y, size)
}

// The reference's, in memories that are filled alike; what is left in them is compared.
fn compare(
    file: &[u8],
    asked: Asked,
    values: &[u8],
    res: &[u8],
    work: &[u8],
    left: &[u8],
    counts: &mut [u64],
) -> Result<u32, Refusal> {
    let mut again = rooms::short_filled();
    let mut cleared = rooms::short_filled();
    let mut expected = rooms::long_filled();
    let right = trace(
        file,
        asked,
        values,
        false,
        &mut again,
        &mut cleared,
        &mut expected,
    );
    hold(
        counts,
        same_lent(left, &expected, asked.left),
        tally::TRACE_BYTES,
    );
    hold(counts, res == again.as_slice(), tally::TRACE_RESULTS);
    hold(counts, work == cleared.as_slice(), tally::TRACE_WORKS);
    right
}

fn compare_answers(answer: Result<u32, Refusal>, right: Result<u32, Refusal>, counts: &mut [u64]) {
    add(counts, plus(tally::TRACES, number_of(right) as usize), 1);
    hold(counts, answer == right, tally::TRACE_ANSWERS);
}

// Trace by both; the trace is left in `left`.
fn trace_both(
    file: &[u8],
    asked: Asked,
    values: &[u8],
    left: &mut [u8],
    counts: &mut [u64],
) -> Result<u32, Refusal> {
    let mut result = rooms::short_filled();
    let mut work = rooms::short_filled();
    let answer = trace(file, asked, values, true, &mut result, &mut work, left);
    let right = compare(file, asked, values, &result, &work, left, counts);
    compare_answers(answer, right, counts);
    right
}

// ---- limits

// Done at a limit, and refused with 26 past it.
fn count_groups(groups: u32, number: u32, counts: &mut [u64]) {
    let done = number == 0;
    let refused = number == 26;
    let base = tally::TRACE_LIMITS;
    add_if(counts, base, done && groups == 1);
    add_if(counts, base + 1, done && groups == 512);
    add_if(counts, base + 2, refused && groups == 0);
    add_if(counts, base + 3, refused && groups == 513);
}

fn count_phases(phase: usize, phases: usize, number: u32, counts: &mut [u64]) {
    let done = number == 0;
    let base = tally::TRACE_LIMITS;
    add_if(counts, base + 4, done && phase == 0);
    add_if(counts, base + 5, done && plus(phase, 1) == phases);
    add_if(counts, base + 6, number == 26 && phase == phases);
}

fn count_lists(asked: Asked, counted: Counted, number: u32, counts: &mut [u64]) {
    let refused = number == 27;
    let inputs = times(asked.groups as usize, counted.given);
    let chosen = asked.choices == counted.chosen;
    let given = asked.inputs == inputs;
    let base = tally::TRACE_LIMITS;
    let right = chosen && given;
    let more = asked.choices == plus(counted.chosen, 1);
    let fewer = plus(asked.choices, 1) == counted.chosen;
    let longer = asked.inputs == plus(inputs, 1);
    let shorter = plus(asked.inputs, 1) == inputs;
    add_if(counts, base + 7, refused && given && more);
    add_if(counts, base + 8, refused && given && fewer);
    add_if(counts, base + 9, refused && chosen && longer);
    add_if(counts, base + 10, refused && chosen && shorter);
    add_if(counts, base + 11, refused && right);
}

fn count_memory(asked: Asked, size: usize, number: u32, counts: &mut [u64]) {
    let exact = asked.left == size;
    let short = plus(asked.left, 1) == size;
    let base = tally::TRACE_LIMITS;
    add_if(counts, base + 12, number == 0 && exact);
    add_if(counts, base + 13, number == 28 && short);
}

fn count_limits(asked: Asked, counted: Counted, number: u32, counts: &mut [u64]) {
    let steps = steps_of(asked.groups, asked.phase, counted.phases);
    count_groups(asked.groups, number, counts);
    count_phases(asked.phase as usize, counted.phases, number, counts);
    count_lists(asked, counted, number, counts);
    count_memory(asked, size_of(counted, steps), number, counts);
}

// ---- runs

// Whether the file on the trace shows what the fold on the given values shows.
fn same_runs(
    file: &[u8],
    fold: &[u8],
    sizes: Sizes,
    asked: Asked,
    values: &[u8],
    left: &[u8],
) -> bool {
    let mut shown = rooms::short_zeros();
    let mut folded = rooms::short_zeros();
    let inputs = first(rest(left, sizes.unknown), times(sizes.steps, sizes.inputs));
    let done = trial_runs::run(
        file,
        sizes.steps,
        first(left, sizes.unknown),
        inputs,
        &mut shown,
    );
    let choices = first(values, asked.choices);
    let given = given_inputs(values, asked);
    let again = trial_runs::run(fold, sizes.groups, choices, given, &mut folded);
    done && again && trial_runs::same_runs(file, fold, sizes, &shown, &folded)
}

fn count_runs(sizes: Sizes, counted: Counted, right: bool, counts: &mut [u64]) {
    let each = times(sizes.phases, sizes.inputs);
    let inputs = each.wrapping_sub(sizes.group_inputs);
    let choices = sizes.unknown.wrapping_sub(counted.chosen);
    add(counts, tally::TRACED_STEPS, sizes.steps);
    add(counts, tally::INPUTS_DROPPED, inputs);
    add(counts, tally::CHOICES_DROPPED, choices);
    hold(counts, right, tally::TRACE_RUNS);
}

// One trace of a file and its fold, of which there is none where Fold refuses.
fn try_fold(
    file: &[u8],
    fold: &[u8],
    wish: u32,
    counted: Counted,
    seed: &mut u64,
    counts: &mut [u64],
) {
    let mut values = rooms::long_zeros();
    let mut left = rooms::long_filled();
    let asked = any_asked(seed, wish, counted);
    put_any_values(&mut values, seed, plus(asked.choices, asked.inputs));
    let right = trace_both(file, asked, &values, &mut left, counts);
    count_limits(asked, counted, number_of(right), counts);
    let Ok(steps) = right else {
        return;
    };
    let sizes = trial_runs::sizes_of(file, fold, steps as usize, counted.phases);
    let alike = same_runs(file, fold, sizes, asked, &values, &left);
    count_runs(sizes, counted, alike, counts);
}

// ---- all

// The reference's fold, with enough memory.
fn fold(file: &[u8], wish: u32, res: &mut [u8]) -> Result<Folded, Refusal> {
    let mut list = [0u32; 1024];
    let lent = Lent {
        result: 65536,
        work: 49152,
        clocks: 256,
    };
    reference_fold::fold(file, wish, lent, res, &mut list)
}

fn try_trace(file: &[u8], seed: &mut u64, counts: &mut [u64]) {
    let mut result = rooms::short_filled();
    let wish = any_wish(seed);
    match fold(file, wish, &mut result) {
        Ok(folded) => {
            let fold = first(&result, length_of(folded.after));
            let counted = count_all(file, fold, folded.phases as usize);
            try_fold(file, fold, wish, counted, seed, counts);
        }
        Err(_) => try_fold(file, b"", wish, nothing(), seed, counts),
    }
}

// Two traces of a file; their values move no seed.
pub fn try_traces(file: &[u8], seed: u64, counts: &mut [u64]) {
    let mut own = seed;
    try_trace(file, &mut own, counts);
    try_trace(file, &mut own, counts);
}
