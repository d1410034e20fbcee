// Run as it is said: its questions, then the steps.
use reference_questions::{Refusal, said};
use reference_rows::rows::{count_kind, row_at, rows_of};

// How many registers start unknown.
pub fn count_unknown(file: &[u8], rows: usize) -> usize {
    (0..rows)
        .filter(|&at| crate::steps::chosen(row_at(file, at)))
        .count()
}

// Whether each value is 0 or 1.
pub fn all_bits(values: &[u8]) -> bool {
    values.iter().all(|&value| value <= 1)
}

// So many rows in each of the steps, of which there are at most 4,096.
pub fn in_all(steps: usize, rows: usize) -> usize {
    (steps % 4097) * (rows % 65536)
}

// What a caller lends.
#[derive(Clone, Copy)]
pub struct Memory {
    pub result: usize,
    pub work: usize,
}

// 17 to 20, of a file that is accepted.
fn ask_run(
    file: &[u8],
    steps: usize,
    choices: &[u8],
    inputs: &[u8],
    lent: Memory,
) -> Result<(), Refusal> {
    let rows = rows_of(file);
    if steps > 4096 {
        return Err(said(17, 0));
    }
    let chosen = choices.len() == count_unknown(file, rows);
    let given = inputs.len() == in_all(steps, count_kind(file, rows, 1));
    if !chosen || !given {
        return Err(said(18, 0));
    }
    if !all_bits(choices) || !all_bits(inputs) {
        return Err(said(19, 0));
    }
    let holds = lent.result >= in_all(steps, count_kind(file, rows, 6));
    if !holds || lent.work < reference_rows::rows::work_for(rows) {
        return Err(said(20, 0));
    }
    Ok(())
}

// Run: on success the result starts with what the outputs show, and is unchanged after it; a refusal does not change it. Work is zero after both.
pub fn run(
    file: &[u8],
    steps: usize,
    choices: &[u8],
    inputs: &[u8],
    res: &mut [u8],
    work: &mut [u8],
) -> Result<(), Refusal> {
    work.fill(0);
    reference_questions::check(file)?;
    let lent = Memory {
        result: res.len(),
        work: work.len(),
    };
    ask_run(file, steps, choices, inputs, lent)?;
    crate::steps::run(file, steps, choices, inputs, res);
    Ok(())
}
