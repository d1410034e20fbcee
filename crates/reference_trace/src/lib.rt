// Trace by the request's words: each value that the original's run needs is looked for among the fold's by its name, a label and a phase.
#![tactic(auto)]

use reference_fold::Lent;
use reference_questions::{Refusal, said};
use reference_rows::bytes::{after, item, put_item};
use reference_rows::rows::{Row, count_kind, length_of, row_at, rows_of};
use reference_run::running::{all_bits, count_unknown, in_all};

fn bounded(x: u32, most: u32) -> usize {
    x.min(most) as usize
}

// Whole groups before the last, and its phases up to this one. Groups and phases past their limits are refused before this counts.
fn steps_of(groups: u32, phase: u32, phases: u32) -> usize {
    let before = groups.wrapping_sub(1);
    let whole = in_all(bounded(before, 512), bounded(phases, 8));
    let part = after(bounded(phase, 8));
    whole.wrapping_add(part)
}

// ---- names

// The rows that have values: inputs (kind 1), and registers that start unknown (kind 2).
fn has_value(row: Row, kind: u8) -> bool {
    row.kind == kind && (kind == 1 || row.reset == 2)
}

fn name_of(row: Row, phase: u16) -> u32 {
    let label = if row.kind == 1 { row.a } else { row.b };
    8 * u32::from(label) + u32::from(phase % 8)
}

// A register has no phase.
fn list_row(row: Row, kind: u8, names: &mut [u32], count: usize) -> usize {
    if !has_value(row, kind) {
        return count;
    }
    let phase = if kind == 1 { row.b } else { 0 };
    put_item(names, count, name_of(row, phase));
    after(count)
}

// The names of the fold's rows of the kind in their order; the answer is how many.
fn list_names(fold: &[u8], kind: u8, names: &mut [u32]) -> usize {
    let rows = rows_of(fold);
    let mut count = 0;
    for at in 0..rows {
        count = list_row(row_at(fold, at), kind, names, count);
    }
    count
}

// Where the name stands, if it was kept.
fn place_of(names: &[u32], count: usize, wanted: u32) -> Option<usize> {
    (0..count).find(|&at| item(names, at) == wanted)
}

// ---- values

// A row of the original in this phase: the value of its name, 0 if that was not kept. The fold's values of the group start at `from`; the answer is the place after the value.
fn put_row(
    row: Row,
    kind: u8,
    phase: u16,
    names: &[u32],
    count: usize,
    values: &[u8],
    from: usize,
    left: &mut [u8],
    place: usize,
) -> usize {
    if !has_value(row, kind) {
        return place;
    }
    let value = match place_of(names, count, name_of(row, phase)) {
        Some(at) => item(values, from.wrapping_add(at)),
        None => 0,
    };
    put_item(left, place, value);
    after(place)
}

// All rows of the kind in this phase.
fn put_rows(
    file: &[u8],
    kind: u8,
    phase: u16,
    names: &[u32],
    count: usize,
    values: &[u8],
    from: usize,
    left: &mut [u8],
    place: usize,
) -> usize {
    let rows = rows_of(file);
    let mut next = place;
    for at in 0..rows {
        let row = row_at(file, at);
        next = put_row(row, kind, phase, names, count, values, from, left, next);
    }
    next
}

fn phase_of(step: usize, phases: usize) -> u16 {
    if phases == 0 {
        0
    } else {
        (step % phases % 8) as u16
    }
}

fn group_of(step: usize, phases: usize) -> usize {
    if phases == 0 { 0 } else { step / phases }
}

// The inputs of every step, behind the choices.
fn put_inputs(
    file: &[u8],
    fold: &[u8],
    phases: usize,
    steps: usize,
    inputs: &[u8],
    left: &mut [u8],
    place: usize,
) {
    let mut names = reference_rows::rooms::row_numbers();
    let count = list_names(fold, 1, &mut names);
    let mut next = place;
    for step in 0..steps {
        let from = in_all(group_of(step, phases), count);
        let phase = phase_of(step, phases);
        next = put_rows(file, 1, phase, &names, count, inputs, from, left, next);
    }
}

// The choices; the answer is the place after them.
fn put_choices(file: &[u8], fold: &[u8], choices: &[u8], left: &mut [u8]) -> usize {
    let mut names = reference_rows::rooms::row_numbers();
    let count = list_names(fold, 2, &mut names);
    put_rows(file, 2, 0, &names, count, choices, 0, left, 0)
}

// ---- 26 to 28

fn groups_right(groups: u32, phase: u32, phases: u32) -> bool {
    (1..=512).contains(&groups) && phase < phases
}

fn values_right(fold: &[u8], groups: u32, choices: &[u8], inputs: &[u8]) -> bool {
    let rows = rows_of(fold);
    let chosen = choices.len() == count_unknown(fold, rows);
    let given = inputs.len() == in_all(bounded(groups, 512), count_kind(fold, rows, 1));
    chosen && given && all_bits(choices) && all_bits(inputs)
}

// The bytes of a trace of so many steps.
fn size_of(file: &[u8], steps: usize) -> usize {
    let rows = rows_of(file);
    let each = in_all(steps, count_kind(file, rows, 1));
    count_unknown(file, rows).wrapping_add(each)
}

fn trace_fold(
    file: &[u8],
    fold: &[u8],
    phases: u32,
    groups: u32,
    phase: u32,
    choices: &[u8],
    inputs: &[u8],
    left: &mut [u8],
) -> Result<u32, Refusal> {
    let steps = steps_of(groups, phase, phases);
    if !groups_right(groups, phase, phases) {
        return Err(said(26, 0));
    }
    if !values_right(fold, groups, choices, inputs) {
        return Err(said(27, 0));
    }
    if left.len() < size_of(file, steps) {
        return Err(said(28, 0));
    }
    let place = put_choices(file, fold, choices, left);
    put_inputs(file, fold, bounded(phases, 8), steps, inputs, left, place);
    Ok((steps % 65536) as u32)
}

// ---- all

fn file_of(res: &[u8], rows: u32) -> &[u8] {
    &res[..length_of(rows).min(res.len())]
}

fn fold_and_trace(
    file: &[u8],
    wish: u32,
    groups: u32,
    phase: u32,
    choices: &[u8],
    inputs: &[u8],
    res: &mut [u8],
    lent: Lent,
    left: &mut [u8],
) -> Result<u32, Refusal> {
    let mut list = [0u32; 1024];
    let folded = reference_fold::fold(file, wish, lent, res, &mut list)?;
    let fold = file_of(res, folded.after);
    trace_fold(
        file,
        fold,
        folded.phases,
        groups,
        phase,
        choices,
        inputs,
        left,
    )
}

// Trace: on success `left` starts with the choices and inputs, and is unchanged after them, and the answer is how many steps there are; a refusal does not change it. Result and work are zero after both. There is no clock list to be too short.
pub fn trace(
    file: &[u8],
    wish: u32,
    groups: u32,
    phase: u32,
    choices: &[u8],
    inputs: &[u8],
    res: &mut [u8],
    work: &mut [u8],
    left: &mut [u8],
) -> Result<u32, Refusal> {
    let lent = Lent {
        result: res.len(),
        work: work.len(),
        clocks: 256,
    };
    let traced = fold_and_trace(file, wish, groups, phase, choices, inputs, res, lent, left);
    res.fill(0);
    work.fill(0);
    traced
}
