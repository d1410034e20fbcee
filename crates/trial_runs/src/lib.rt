// A file and its fold run side by side: the outputs are compared phase by phase. A sorted file beside the one that it was made from, an imported one beside its text: step by step.
#![tactic(auto)]

ghost use Rattle.std.specs.Prelude.{◌<◌};

use questions::Numbered;
use reference_questions::Refusal;
use reference_rows::rows::{Row, count_kind, row_at, rows_of, work_for};
use text::bytes::{first, get, put, rest};
use trial_pieces::dice::{put_values, roll};
use trial_pieces::pieces::plus;
use trial_tally::rooms;
use trial_tally::rooms::{LONG_LIST, LONG_TABLE, SHORT_LIST, SHORT_TABLE};
use trial_tally::tally::{add, hold};

const MOST_STEPS: usize = 48;

// ---- answers

// A refusal of the product in the reference's form.
pub fn refused(refusal: impl Numbered + Copy) -> Refusal {
    Refusal {
        number: refusal.number(),
        place: refusal.place(),
    }
}

// An answer by its number, 0 where there is no refusal.
pub fn number_of<T: Copy>(answer: Result<T, Refusal>) -> u32 {
    match answer {
        Ok(_) => 0,
        Err(refusal) => refusal.number,
    }
}

// ---- sizes

// A run of so many steps takes so many groups; it starts by so many choices, a step has so many inputs and outputs, a group so many others.
#[derive(Clone, Copy)]
pub struct Sizes {
    pub phases: usize,
    pub steps: usize,
    pub groups: usize,
    pub unknown: usize,
    pub inputs: usize,
    pub outputs: usize,
    pub group_inputs: usize,
    pub group_outputs: usize,
}

pub fn times(x: usize, y: usize) -> usize {
    x % 65536 * (y % 65536)
}

// Whole groups, a step less or more, or any number of steps.
fn any_steps(seed: &mut u64, phases: usize) -> usize {
    let whole = times(roll(seed, 4), phases);
    let more = plus(whole, 1);
    let less = more.wrapping_sub(2);
    let any = roll(seed, MOST_STEPS);
    match roll(seed, 5) {
        0 => whole,
        1 => more,
        2 if whole == 0 => 0,
        2 => less,
        _ => any,
    }
}

fn groups_of(steps: usize, phases: usize) -> usize {
    let up = plus(steps, phases).wrapping_sub(1);
    if phases == 0 { 0 } else { up / phases }
}

// ---- labels

fn label_in(row: Row) -> u16 {
    if row.kind == 1 { row.a } else { row.b }
}

// Whether the row is of the kind; of registers only those that start unknown.
fn counted(row: Row, kind: u8) -> bool {
    row.kind == kind && (kind != 2 || row.reset == 2)
}

fn map_row(row: Row, kind: u8, map: &mut [u16], next: usize) -> usize {
    if !counted(row, kind) {
        return next;
    }
    let ordinal = (next % 65536) as u16;
    put(map, label_in(row).into(), ordinal);
    plus(next, 1)
}

// At each label of the kind, its place among the rows of that kind; the answer is how many there are.
fn map_labels(file: &[u8], kind: u8, map: &mut [u16]) -> usize {
    let rows = rows_of(file);
    let mut next = 0;
    for at in 0..rows {
        next = map_row(row_at(file, at), kind, map, next);
    }
    next
}

fn place_of(map: &[u16], row: Row) -> usize {
    get(map, label_in(row).into()).into()
}

// ---- what the fold is given

// An input of the fold in all groups; past the last step it keeps the value that it has by chance.
fn fill_column(
    sizes: Sizes,
    from: usize,
    inputs: &[u8],
    row: Row,
    column: usize,
    given: &mut [u8],
) {
    for g in 0..sizes.groups {
        let step = plus(times(g, sizes.phases), row.b.into());
        if step < sizes.steps {
            let at = plus(times(g, sizes.group_inputs), column);
            let source = plus(times(step, sizes.inputs), from);
            put(given, at, get(inputs, source));
        }
    }
}

fn fill_row(
    sizes: Sizes,
    map: &[u16],
    inputs: &[u8],
    row: Row,
    column: usize,
    given: &mut [u8],
) -> usize {
    if row.kind != 1 {
        return column;
    }
    fill_column(sizes, place_of(map, row), inputs, row, column, given);
    plus(column, 1)
}

fn fill_inputs(fold: &[u8], sizes: Sizes, map: &[u16], inputs: &[u8], given: &mut [u8]) {
    let rows = rows_of(fold);
    let mut column = 0;
    for at in 0..rows {
        column = fill_row(sizes, map, inputs, row_at(fold, at), column, given);
    }
}

fn fill_choice(map: &[u16], choices: &[u8], row: Row, place: usize, given: &mut [u8]) -> usize {
    if !counted(row, 2) {
        return place;
    }
    put(given, place, get(choices, place_of(map, row)));
    plus(place, 1)
}

// The answer is how many choices the fold has.
fn fill_choices(fold: &[u8], map: &[u16], choices: &[u8], given: &mut [u8]) -> usize {
    let rows = rows_of(fold);
    let mut place = 0;
    for at in 0..rows {
        place = fill_choice(map, choices, row_at(fold, at), place, given);
    }
    place
}

// ---- what is shown

// An output of the fold in all groups, where the step is one of the file's run.
fn same_column(
    sizes: Sizes,
    from: usize,
    shown: &[u8],
    row: Row,
    column: usize,
    folded: &[u8],
) -> bool {
    (0..sizes.groups).all(|g| {
        let step = plus(times(g, sizes.phases), row.c.into());
        let at = plus(times(g, sizes.group_outputs), column);
        let source = plus(times(step, sizes.outputs), from);
        step >= sizes.steps || get(folded, at) == get(shown, source)
    })
}

fn same_shown(fold: &[u8], sizes: Sizes, map: &[u16], shown: &[u8], folded: &[u8]) -> bool {
    let rows = rows_of(fold);
    let nodes = rows.wrapping_sub(sizes.group_outputs);
    (nodes..rows).all(|at| {
        let row = row_at(fold, at);
        let column = at.wrapping_sub(nodes);
        same_column(sizes, place_of(map, row), shown, row, column, folded)
    })
}

// ---- runs

// Run by the product with as much work as it asks for; whether it was done.
pub fn run(file: &[u8], steps: usize, choices: &[u8], inputs: &[u8], shown: &mut [u8]) -> bool {
    let mut work = rooms::short_zeros();
    let end = work_for(rows_of(file)).min(work.len());
    let count = (steps % 65536) as u32;
    run::run(file, count, choices, inputs, shown, &mut work[..end]).is_ok()
}

// The file's run by the product; whether it is the original's by the reference.
fn try_original(
    original: &[u8],
    file: &[u8],
    steps: usize,
    choices: &[u8],
    inputs: &[u8],
    shown: &mut [u8],
) -> bool {
    let mut again = rooms::short_zeros();
    let done = run(file, steps, choices, inputs, shown);
    reference_run::steps::run(original, steps, choices, inputs, &mut again);
    done && &*shown == again.as_slice()
}

// What the fold's inputs are given in all groups.
fn give_inputs(
    file: &[u8],
    fold: &[u8],
    sizes: Sizes,
    inputs: &[u8],
    seed: &mut u64,
    given: &mut [u8],
) -> usize {
    let mut map = rooms::words();
    let size = times(sizes.groups, sizes.group_inputs);
    put_values(given, seed, size);
    map_labels(file, 1, &mut map);
    fill_inputs(fold, sizes, &map, inputs, given);
    size
}

// The choices of the fold's registers; the answer is how many.
fn give_choices(file: &[u8], fold: &[u8], choices: &[u8], picked: &mut [u8]) -> usize {
    let mut map = rooms::words();
    map_labels(file, 2, &mut map);
    fill_choices(fold, &map, choices, picked)
}

// The fold's run on what the file's run was given.
fn run_fold(
    file: &[u8],
    fold: &[u8],
    sizes: Sizes,
    values: &[u8],
    seed: &mut u64,
    folded: &mut [u8],
) -> bool {
    let mut picked = [0u8; 256];
    let mut given = rooms::short_zeros();
    let inputs = rest(values, sizes.unknown);
    let size = give_inputs(file, fold, sizes, inputs, seed, &mut given);
    let count = give_choices(file, fold, values, &mut picked);
    run(
        fold,
        sizes.groups,
        first(&picked, count),
        first(&given, size),
        folded,
    )
}

// Whether file and fold show the same.
pub fn same_runs(file: &[u8], fold: &[u8], sizes: Sizes, shown: &[u8], folded: &[u8]) -> bool {
    let mut map = rooms::words();
    map_labels(file, 6, &mut map);
    same_shown(fold, sizes, &map, shown, folded)
}

fn try_folded(
    file: &[u8],
    fold: &[u8],
    sizes: Sizes,
    values: &[u8],
    shown: &[u8],
    seed: &mut u64,
) -> bool {
    let mut folded = rooms::short_zeros();
    let done = run_fold(file, fold, sizes, values, seed, &mut folded);
    done && same_runs(file, fold, sizes, shown, &folded)
}

pub fn unknown_in(file: &[u8]) -> usize {
    (0..rows_of(file))
        .filter(|&at| counted(row_at(file, at), 2))
        .count()
}

pub fn sizes_of(file: &[u8], fold: &[u8], steps: usize, phases: usize) -> Sizes {
    let rows = rows_of(file);
    let fold_rows = rows_of(fold);
    Sizes {
        phases,
        steps,
        groups: groups_of(steps, phases),
        unknown: unknown_in(file),
        inputs: count_kind(file, rows, 1),
        outputs: count_kind(file, rows, 6),
        group_inputs: count_kind(fold, fold_rows, 1),
        group_outputs: count_kind(fold, fold_rows, 6),
    }
}

// Whether the run of the file is right, and that of the fold.
#[derive(Clone, Copy)]
struct Right {
    file: bool,
    fold: bool,
}

// Both on these values, the choices first.
fn try_both(file: &[u8], fold: &[u8], sizes: Sizes, values: &[u8], seed: &mut u64) -> Right {
    let mut shown = rooms::short_zeros();
    let choices = first(values, sizes.unknown);
    let inputs = rest(values, sizes.unknown);
    let original = try_original(file, file, sizes.steps, choices, inputs, &mut shown);
    let folded = try_folded(file, fold, sizes, values, &shown, seed);
    Right {
        file: original,
        fold: folded,
    }
}

// Choices and inputs by chance.
fn try_sized(file: &[u8], fold: &[u8], sizes: Sizes, seed: &mut u64) -> Right {
    let mut values = rooms::short_zeros();
    let size = plus(sizes.unknown, times(sizes.steps, sizes.inputs));
    put_values(&mut values, seed, size);
    try_both(file, fold, sizes, first(&values, size), seed)
}

fn count_run(steps: usize, right: Right, tally: &mut [u64]) {
    add(tally, trial_tally::tally::RUNS, 1);
    add(tally, trial_tally::tally::STEPS, steps);
    hold(tally, right.file, trial_tally::tally::FILE_RUNS);
    hold(tally, right.fold, trial_tally::tally::FOLD_RUNS);
}

// One run of both, over a number of steps by chance.
pub fn try_run(file: &[u8], fold: &[u8], phases: usize, seed: &mut u64, tally: &mut [u64]) {
    let steps = any_steps(seed, phases);
    let sizes = sizes_of(file, fold, steps, phases);
    let right = try_sized(file, fold, sizes, seed);
    count_run(steps, right, tally);
}

// ---- sorted files

// Both have their inputs and registers in the same order, so both are given the same values.
fn same_as_original(original: &[u8], sorted: &[u8], sizes: Sizes, values: &[u8]) -> bool {
    let mut shown = rooms::short_zeros();
    let choices = first(values, sizes.unknown);
    let inputs = rest(values, sizes.unknown);
    try_original(original, sorted, sizes.steps, choices, inputs, &mut shown)
}

// One run of both, over a few steps.
pub fn try_sorted(original: &[u8], sorted: &[u8], seed: &mut u64, tally: &mut [u64]) {
    let mut values = rooms::long_zeros();
    let steps = roll(seed, 8);
    let sizes = sizes_of(original, sorted, steps, 1);
    let size = plus(sizes.unknown, times(steps, sizes.inputs));
    put_values(&mut values, seed, size);
    let right = same_as_original(original, sorted, sizes, first(&values, size));
    add(tally, trial_tally::tally::SORTED_RUNS, 1);
    add(tally, trial_tally::tally::SORTED_STEPS, steps);
    hold(tally, right, trial_tally::tally::SORT_RUNS);
}

// ---- imported files

// The text's run, by its own equations, with a table and a list of these lengths.
fn run_in<const TABLE: usize, const LIST: usize>(
    text: &[u8],
    steps: usize,
    choices: &[u8],
    inputs: &[u8],
    shown: &mut [u8],
)
    requires table { TABLE < 1048576 }
    requires list { LIST < 1048576 }
{
    let mut table = [0u32; TABLE];
    let mut list = [0u32; LIST];
    reference_equations::run(text, steps, choices, inputs, shown, &mut table, &mut list);
}

fn run_text(text: &[u8], steps: usize, choices: &[u8], inputs: &[u8], shown: &mut [u8]) {
    if rooms::is_short(text) {
        run_in::<SHORT_TABLE, SHORT_LIST>(text, steps, choices, inputs, shown);
    } else {
        run_in::<LONG_TABLE, LONG_LIST>(text, steps, choices, inputs, shown);
    }
}

// The imported file has the text's inputs and latches in their order, so both are given the same values.
fn same_as_text(text: &[u8], file: &[u8], sizes: Sizes, values: &[u8]) -> bool {
    let mut shown = rooms::short_zeros();
    let mut again = rooms::short_zeros();
    let choices = first(values, sizes.unknown);
    let inputs = rest(values, sizes.unknown);
    let done = run(file, sizes.steps, choices, inputs, &mut shown);
    run_text(text, sizes.steps, choices, inputs, &mut again);
    done && shown == again
}

// One run of both, over a few steps.
pub fn try_text(text: &[u8], file: &[u8], seed: &mut u64, tally: &mut [u64]) {
    let mut values = rooms::long_zeros();
    let steps = roll(seed, 8);
    let sizes = sizes_of(file, file, steps, 1);
    let size = plus(sizes.unknown, times(steps, sizes.inputs));
    put_values(&mut values, seed, size);
    let right = same_as_text(text, file, sizes, first(&values, size));
    add(tally, trial_tally::tally::IMPORTED_RUNS, 1);
    add(tally, trial_tally::tally::IMPORTED_STEPS, steps);
    hold(tally, right, trial_tally::tally::IMPORT_RUNS);
}
