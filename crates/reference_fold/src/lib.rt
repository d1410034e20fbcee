// The second folder, written from the texts alone, to hold the product against. Nothing of the crates `reference_..` is shared with it.
#![tactic(auto)]

mod images;

use reference_lasso::clocks::put_clocks;
use reference_lasso::states::{Lasso, find_lasso, list_registers, phase_count, put_periods};
use reference_questions::{Refusal, said};
use reference_rows::rows::{Row, row_at};

// What Fold answers of a file that it folds.
#[derive(Clone, Copy, Debug, PartialEq, Eq)]
pub struct Folded {
    pub stem: u32,
    pub cycle: u32,
    pub phases: u32,
    pub used: u32,
    pub before: u32,
    pub after: u32,
}

// How many bytes of result and work and how many clock entries a caller lends.
#[derive(Clone, Copy)]
pub struct Lent {
    pub result: usize,
    pub work: usize,
    pub clocks: usize,
}

// ---- 11 to 15

// Whether the row has a phase other than 0.
fn phased(row: Row) -> bool {
    match row.kind {
        1 => row.b != 0,
        6 => row.c != 0,
        _ => false,
    }
}

fn enough(lent: Lent) -> bool {
    lent.result >= 65536 && lent.work >= 49152 && lent.clocks >= 256
}

fn ask_fold(file: &[u8], rows: usize, wish: u32, lent: Lent) -> Result<(), Refusal> {
    if rows > 1008 {
        return Err(said(11, 0));
    }
    if reference_rows::rows::count_kind(file, rows, 2) > 256 {
        return Err(said(12, 0));
    }
    if let Some(row) = (0..rows).find(|&at| phased(row_at(file, at))) {
        return Err(said(13, row));
    }
    if wish > 8 {
        return Err(said(14, 0));
    }
    if !enough(lent) {
        return Err(said(15, 0));
    }
    Ok(())
}

// ---- the fold

fn short(x: usize) -> u32 {
    (x % 65536) as u32
}

// What is found in the three-valued run.
#[derive(Clone, Copy)]
struct Found {
    lasso: Lasso,
    phases: usize,
    used: usize,
}

fn look(
    file: &[u8],
    rows: usize,
    wish: u32,
    states: &mut [u8],
    fixed: &mut [u16],
    list: &mut [u32],
) -> Option<Found> {
    let mut registers = [0u16; 256];
    let mut periods = [0u16; 256];
    let mut values = [0u8; 1008];
    let count = list_registers(file, rows, &mut registers);
    let lasso = find_lasso(file, rows, &registers, count, states, &mut values)?;
    put_periods(states, lasso, count, &mut periods);
    let phases = phase_count(&periods, count, wish);
    let used = put_clocks(
        file, &registers, count, states, &periods, phases, fixed, list,
    );
    Some(Found {
        lasso,
        phases,
        used,
    })
}

// The folded file in the result; the answer is how many rows it has.
fn put_folded(file: &[u8], rows: usize, fixed: &[u16], phases: usize, res: &mut [u8]) -> usize {
    let mut images = reference_rows::rooms::image_words();
    let mut made = reference_rows::rooms::made_words();
    let mut marks = reference_rows::rooms::mark_words();
    let sofar = images::unroll(file, rows, fixed, phases, &mut images, &mut made);
    let kept = reference_writing::cone::find_cone(&made, sofar, &mut marks);
    reference_writing::writer::put_file(&made, sofar, &marks, kept, res);
    kept
}

fn fold_asked(
    file: &[u8],
    rows: usize,
    wish: u32,
    res: &mut [u8],
    list: &mut [u32],
) -> Result<Folded, Refusal> {
    let mut states = reference_rows::rooms::state_bytes();
    let mut fixed = [0u16; 1008];
    let Some(found) = look(file, rows, wish, &mut states, &mut fixed, list) else {
        return Err(said(16, 0));
    };
    let kept = put_folded(file, rows, &fixed, found.phases, res);
    Ok(Folded {
        stem: short(found.lasso.stem),
        cycle: short(found.lasso.cycle),
        phases: short(found.phases),
        used: short(found.used),
        before: short(rows),
        after: short(kept),
    })
}

// Fold: on success the result starts with the folded file and is zero after it, and the list has label, period, word and
// ones for each used generator; a refusal changes neither.
pub fn fold(
    file: &[u8],
    wish: u32,
    lent: Lent,
    res: &mut [u8],
    list: &mut [u32],
) -> Result<Folded, Refusal> {
    reference_questions::check(file)?;
    let rows = reference_rows::rows::rows_of(file);
    ask_fold(file, rows, wish, lent)?;
    fold_asked(file, rows, wish, res, list)
}
