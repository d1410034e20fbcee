// Check: questions 1 to 10 of a whole file, in the paper's order.
#![tactic(auto)]

ghost use Rattle.std.specs.Prelude.{◌≡◌, false, ◌*◌, ◌<◌, ◌≤◌, length};
ghost use Rattle.netlist.specs.Limits.{most_blocks};
ghost use Rattle.netlist.specs.FileFormat.{read_fields, fields_of, netlist_of};
ghost use Rattle.questions.specs.Questions.{length_right, rows_refusal, file_refusal_with};
ghost use Rattle.blocks.specs.BlockCode.{question_of};
ghost use Rattle.blockfile.specs.Ready.{HasRows};
ghost use Rattle.row_questions.specs.RowTested.{operand_by, TestsOf};
ghost use Rattle.name_marks.specs.Marks.{mark_bytes, NamesMarked};
ghost use Rattle.accept.specs.Refusals.{refusal_in, Answered, Checked, CheckedUnordered};
ghost use Rattle.accept.specs.Parts.{part_refusal, blocks_refusal, BlocksRight, RowAnswered};

use blockfile::BLOCK_ROWS;
use blockfile::count::Counts;
use blocks::BlockRefusal;
use name_marks::{FEW_MARK_BYTES, MARK_BYTES};
use netlist::MOST_FILE_BYTES;
use questions::Numbered;
use row_questions::RowTests;

// What a file is refused for, and the block or the row.
#[derive(Clone, Copy, Debug, PartialEq, Eq)]
pub enum FileRefusal {
    Length,
    Sum { block: u32 },
    Header { block: u32 },
    RowCount { block: u32 },
    Unused { block: u32 },
    Kind { row: u32 },
    Field { row: u32 },
    Label { row: u32 },
    Literal { row: u32 },
    NoOutput,
}

impl Numbered for FileRefusal {
    ghost use Rattle.accept.specs.Refusals.{refusal_in};

    ghost refusal = { refusal_in };

    fn number(self) -> u32 {
        match self {
            FileRefusal::Length => 1,
            FileRefusal::Sum { block: _ } => 2,
            FileRefusal::Header { block: _ } => 3,
            FileRefusal::RowCount { block: _ } => 4,
            FileRefusal::Unused { block: _ } => 5,
            FileRefusal::Kind { row: _ } => 6,
            FileRefusal::Field { row: _ } => 7,
            FileRefusal::Label { row: _ } => 8,
            FileRefusal::Literal { row: _ } => 9,
            FileRefusal::NoOutput => 10,
        }
    }

    fn place(self) -> u32 {
        match self {
            FileRefusal::Length => 0,
            FileRefusal::Sum { block } => block,
            FileRefusal::Header { block } => block,
            FileRefusal::RowCount { block } => block,
            FileRefusal::Unused { block } => block,
            FileRefusal::Kind { row } => row,
            FileRefusal::Field { row } => row,
            FileRefusal::Label { row } => row,
            FileRefusal::Literal { row } => row,
            FileRefusal::NoOutput => 0,
        }
    }
}

// How many rows an accepted file has, and of which sort.
#[derive(Clone, Copy)]
pub struct Accepted {
    pub rows: usize,
    pub counts: Counts,
}

// Question 1.
fn length_right(file: &[u8]) -> bool
    ensures { result ≡ length_right file.now }
{
    let size = file.len();
    let few = size <= MOST_FILE_BYTES;
    size % 512 == 0 && 512 <= size && few
}

// ---- questions 2 to 5

// The refusal of block `number`.
fn in_block(refusal: BlockRefusal, number: usize) -> FileRefusal
    requires { number < most_blocks }
    ensures { refusal_in result ≡ record { number = question_of refusal; place = number } }
{
    let block = number as u32;
    match refusal {
        BlockRefusal::Sum => FileRefusal::Sum { block },
        BlockRefusal::Header => FileRefusal::Header { block },
        BlockRefusal::RowCount => FileRefusal::RowCount { block },
        BlockRefusal::Unused => FileRefusal::Unused { block },
    }
}

// Each block is handed to its check as a part of the file.
fn check_blocks(file: &[u8], blocks: usize) -> Result<(), FileRefusal>
    requires { (length file.now ≡ 512 * blocks) × (blocks ≤ most_blocks) }
    ensures { part_refusal result ≡ blocks_refusal file.now }
{
    for number in 0..blocks {
        let start = 512 * number;
        let end = start + 512;
        if let Err(refusal) = blocks::check_block(&file[start..end], number, blocks) {
            return Err(in_block(refusal, number));
        }
    }
    Ok(())
}

// ---- questions 6 to 10

// Questions 6 to 9 of a row, from its tests; where they are answered with yes, its name is marked. `unordered` says only by which rule of 9 the tests were made.
fn check_row(
    file: &[u8],
    row: usize,
    unordered: bool,
    tests: RowTests,
    few: bool,
    marks: &mut [u8],
) -> Result<(), FileRefusal>
    requires has_rows { HasRows file.now (length (netlist_of file.now)) × (row < length (netlist_of file.now)) }
    requires tests_of { TestsOf (operand_by unordered) (netlist_of file.now) row (read_fields file.now row) tests }
    requires names_marked { NamesMarked few (netlist_of file.now) row marks.old }
    ensures { RowAnswered (operand_by unordered) file.now row few result marks.new }
{
    let place = row as u32;
    if !tests.kind {
        return Err(FileRefusal::Kind { row: place });
    }
    if !tests.fields {
        return Err(FileRefusal::Field { row: place });
    }
    let named = tests.named;
    let slot = tests.slot;
    if !name_marks::label_is_new(file, row, named, slot, few, &mut *marks) {
        return Err(FileRefusal::Label { row: place });
    }
    if !tests.literals {
        return Err(FileRefusal::Literal { row: place });
    }
    Ok(())
}

// Questions 6 to 9 row by row, then 10. The rows are counted on the way, in one number.
fn check_each_row(
    file: &[u8],
    rows: usize,
    unordered: bool,
    few: bool,
    marks: &mut [u8],
) -> Result<Accepted, FileRefusal>
    requires { HasRows file.now rows × (length marks.old ≡ mark_bytes few) }
    ensures { Answered (rows_refusal (operand_by unordered) (fields_of file.now)) (netlist_of file.now) result }
{
    let mut tally = 0;
    for row in 0..rows {
        let fields = blockfile::read_row(file, row);
        let tests = row_questions::test_row(file, rows, row, unordered, tally, fields);
        let added = tests.tally;
        check_row(file, row, unordered, tests, few, &mut *marks)?;
        tally += added;
    }
    let counts = row_questions::counts_of(rows, tally);
    if counts.outputs == 0 {
        Err(FileRefusal::NoOutput)
    } else {
        Ok(Accepted { rows, counts })
    }
}

// With marks of so many bytes: few, or a bit for each slot.
fn check_marked<const BYTES: usize>(
    file: &[u8],
    rows: usize,
    unordered: bool,
    few: bool,
) -> Result<Accepted, FileRefusal>
    requires { HasRows file.now rows × (mark_bytes few ≡ BYTES) }
    ensures { Answered (rows_refusal (operand_by unordered) (fields_of file.now)) (netlist_of file.now) result }
{
    let mut marks = [0u8; BYTES];
    check_each_row(file, rows, unordered, few, &mut marks)
}

// Questions 6 to 10 of all rows.
fn check_rows(file: &[u8], rows: usize, unordered: bool) -> Result<Accepted, FileRefusal>
    requires { HasRows file.now rows }
    ensures { Answered (rows_refusal (operand_by unordered) (fields_of file.now)) (netlist_of file.now) result }
{
    if rows <= BLOCK_ROWS {
        check_marked::<FEW_MARK_BYTES>(file, rows, unordered, true)
    } else {
        check_marked::<MARK_BYTES>(file, rows, unordered, false)
    }
}

// How many rows a file has whose blocks are right.
fn count_rows(file: &[u8]) -> usize
    requires { BlocksRight file.now }
    ensures { HasRows file.now result }
{
    let blocks = file.len() / 512;
    let last = blocks - 1;
    let start = 512 * last;
    let at = start + 2;
    let rest = memory::read_u8(file, at) as usize;
    63 * last + rest
}

// Gates may stand in any order if `unordered`.
fn accept_by(file: &[u8], unordered: bool) -> Result<Accepted, FileRefusal>
    ensures { Answered (file_refusal_with (operand_by unordered) file.now) (netlist_of file.now) result }
{
    if !length_right(file) {
        return Err(FileRefusal::Length);
    }
    check_blocks(file, file.len() / 512)?;
    let rows = count_rows(file);
    check_rows(file, rows, unordered)
}

pub fn accept(file: &[u8]) -> Result<Accepted, FileRefusal>
    ensures { Checked file.now result }
{
    accept_by(file, false)
}

// The same of a file whose gates may stand in any order.
pub fn accept_unordered(file: &[u8]) -> Result<Accepted, FileRefusal>
    ensures { CheckedUnordered file.now result }
{
    accept_by(file, true)
}
