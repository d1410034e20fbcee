// Questions 1 to 15.
ghost use Rattle.std.specs.Prelude.{◌≡◌, ◌∷◌, ◌+◌, ◌<◌, ◌≤◌, length, MatchOption};
ghost use Rattle.memory.specs.Lists.{first_from};
ghost use Rattle.netlist.specs.Limits.{most_rows};
ghost use Rattle.netlist.specs.Rows.{decode_row, phase_of};
ghost use Rattle.netlist.specs.FileFormat.{row_offset, read_fields, netlist_of};
ghost use Rattle.questions.specs.Questions.{counts_of};
ghost use Rattle.fold_questions.specs.FoldQuestions.{original_refusal, argument_questions};
ghost use Rattle.blockfile.specs.CountCode.{counts_in};
ghost use Rattle.blockfile.specs.Ready.{HasRows};
ghost use Rattle.fold_refusals.specs.EarlyAnswers.{has_phase, AnswersTo};
ghost use Rattle.fold_refusals.specs.FoldRefusals.{Questioned};

use crate::FoldRefusal;
use accept::Accepted;
use blockfile::count::Counts;
use netlist::{
    FOLD_CLOCK_ENTRIES, FOLD_RESULT_BYTES, FOLD_WORK_BYTES, MOST_ORIGINAL_REGISTERS,
    MOST_ORIGINAL_ROWS, MOST_PHASES,
};

const MOST_WISH: u32 = MOST_PHASES as u32;

// The phase of a row: 0 if it is no input and no output.
fn row_phase(file: &[u8], row: usize) -> usize
    requires { (row < most_rows) × (row_offset row + 8 ≤ length file.now) }
    ensures { result ≡ phase_of (decode_row (read_fields file.now row)) }
{
    let fields = blockfile::read_row(file, row);
    let kind = fields.kind;
    match kind {
        1 => fields.b,
        6 => fields.c,
        _ => 0,
    }
}

// 13: the first row whose phase is not 0.
fn first_phase(file: &[u8], rows: usize) -> Option<usize>
    requires { HasRows file.now rows }
    ensures { MatchOption result (first_from 0 rows (has_phase (netlist_of file.now)) ≡ rows) (λ row. (row < rows) × (row ≡ first_from 0 rows (has_phase (netlist_of file.now)))) }
{
    for row in 0..rows {
        if row_phase(file, row) != 0 {
            return Some(row);
        }
    }
    None
}

// 14 and 15: the wish, and the lengths of what is lent; where both are right, the row count is handed on.
fn ask_arguments(
    rows: usize,
    wish: u32,
    res: usize,
    work: usize,
    clocks: usize,
) -> Result<usize, FoldRefusal>
    ensures { AnswersTo (argument_questions wish res work clocks) rows result }
{
    if MOST_WISH < wish {
        return Err(FoldRefusal::Wish);
    }
    if FOLD_RESULT_BYTES <= res && FOLD_WORK_BYTES <= work && FOLD_CLOCK_ENTRIES <= clocks {
        Ok(rows)
    } else {
        Err(FoldRefusal::Memory)
    }
}

// 11 to 13 of an accepted file of this many rows and these counts, then 14 and 15.
fn ask_original(
    file: &[u8],
    rows: usize,
    counts: Counts,
    wish: u32,
    res: usize,
    work: usize,
    clocks: usize,
) -> Result<usize, FoldRefusal>
    requires { HasRows file.now rows × (counts_in counts ≡ counts_of (netlist_of file.now)) }
    ensures { AnswersTo (original_refusal (netlist_of file.now) ∷ argument_questions wish res work clocks) rows result }
{
    if MOST_ORIGINAL_ROWS < rows {
        return Err(FoldRefusal::Rows);
    }
    if MOST_ORIGINAL_REGISTERS < counts.registers {
        return Err(FoldRefusal::Registers);
    }
    match first_phase(file, rows) {
        Some(row) => Err(FoldRefusal::Phase { row: row as u32 }),
        None => ask_arguments(rows, wish, res, work, clocks),
    }
}

// 1 to 15, from the file, the wish, and the lengths of result, work and clock list.
pub fn ask(
    file: &[u8],
    wish: u32,
    res: usize,
    work: usize,
    clocks: usize,
) -> Result<usize, FoldRefusal>
    ensures { Questioned file.now wish res work clocks result }
{
    let Accepted { rows, counts } = accept::accept(file)?;
    ask_original(file, rows, counts, wish, res, work, clocks)
}
