// Check, Count and Show of a file: refusals beside the reference's, counts beside the rows, parts beside the file's bytes.
use accept::FileRefusal;
use blockfile::count::Counts;
use reference_questions::{Refusal, said};
use reference_rows::rows::{count_kind, rows_of};
use text::bytes::{first, rest};
use trial_pieces::dice::{chance, roll};
use trial_pieces::pieces::plus;
use trial_runs::number_of;
use trial_tally::tally::{add, add_if, hold};

// ---- refusals

// Number and place by the scope paper, in a table of its own, as the two of Fold and Sort.
pub fn numbered(number: u32, place: u32) -> Refusal {
    Refusal { number, place }
}

pub fn of_file(refusal: FileRefusal) -> Refusal {
    match refusal {
        FileRefusal::Length => numbered(1, 0),
        FileRefusal::Sum { block } => numbered(2, block),
        FileRefusal::Header { block } => numbered(3, block),
        FileRefusal::RowCount { block } => numbered(4, block),
        FileRefusal::Unused { block } => numbered(5, block),
        FileRefusal::Kind { row } => numbered(6, row),
        FileRefusal::Field { row } => numbered(7, row),
        FileRefusal::Label { row } => numbered(8, row),
        FileRefusal::Literal { row } => numbered(9, row),
        FileRefusal::NoOutput => numbered(10, 0),
    }
}

// ---- Check

pub fn check_right(file: &[u8], right: Result<(), Refusal>) -> bool {
    match accept::accept(file) {
        Ok(_) => right == Ok(()),
        Err(refusal) => right == Err(of_file(refusal)),
    }
}

// ---- Count

// The nodes and the outputs are all rows.
fn rows_right(file: &[u8], counts: Counts) -> bool {
    let rows = rows_of(file);
    let nodes = plus(counts.nodes, counts.outputs) == rows;
    let outputs = counts.outputs == count_kind(file, rows, 6);
    let inputs = counts.inputs == count_kind(file, rows, 1);
    nodes && outputs && inputs
}

fn registers_right(file: &[u8], counts: Counts) -> bool {
    let rows = rows_of(file);
    let registers = counts.registers == count_kind(file, rows, 2);
    let unknown = counts.unknown == trial_runs::unknown_in(file);
    registers && unknown
}

fn counts_right(file: &[u8], counts: Counts) -> bool {
    rows_right(file, counts) && registers_right(file, counts)
}

pub fn count_right(file: &[u8], right: Result<(), Refusal>) -> bool {
    match count::count(file) {
        Ok(counts) => right == Ok(()) && counts_right(file, counts),
        Err(refusal) => right == Err(of_file(refusal)),
    }
}

// ---- Show

// What Show says of a block, where Check says `right`.
pub fn of_show(right: Result<(), Refusal>, blocks: usize, block: u32) -> Result<(), Refusal> {
    right?;
    if block as usize >= blocks {
        return Err(said(21, 0));
    }
    Ok(())
}

// The rows of the block as they stand in the file, and nothing after a refusal.
fn part_of(file: &[u8], block: u32, expected: Result<(), Refusal>) -> &[u8] {
    let index = (block % 512) as usize;
    let size = if expected.is_ok() { 504 } else { 0 };
    first(rest(file, 512 * index + 4), size)
}

// A block of the file or the one after, and at times any number.
fn any_block(seed: u64, blocks: usize) -> u32 {
    let mut own = seed;
    let near = roll(&mut own, plus(blocks, 1));
    let any = roll(&mut own, 4294967296);
    let block = if chance(&mut own, 16) { any } else { near };
    (block % 4294967296) as u32
}

// Number and place hold something else before.
pub fn show_right(file: &[u8], block: u32, expected: Result<(), Refusal>) -> bool {
    let mut number: u32 = 77;
    let mut place: u32 = 77;
    let shown = show::show(file, block, &mut number, &mut place);
    let told = match expected {
        Ok(()) => number == 0 && place == 0,
        Err(refusal) => refusal == Refusal { number, place },
    };
    told && shown == part_of(file, block, expected)
}

// ---- all three

// A file is counted by what Check says, and by what Show says of a block.
fn count_file(check: u32, show: u32, tally: &mut [u64]) {
    add(tally, trial_tally::tally::FILES, 1);
    add_if(tally, trial_tally::tally::COUNTED, check == 0);
    add_if(tally, trial_tally::tally::SHOWN, show == 0);
    add_if(tally, trial_tally::tally::PAST_END, show == 21);
}

fn hold_all(check: bool, count: bool, show: bool, tally: &mut [u64]) {
    hold(tally, check, trial_tally::tally::CHECKS);
    hold(tally, count, trial_tally::tally::COUNTS);
    hold(tally, show, trial_tally::tally::SHOWS);
}

// Check, Count, and Show of a block by chance; the block's number moves no seed.
pub fn try_operations(file: &[u8], seed: u64, tally: &mut [u64]) {
    let right = reference_questions::check(file);
    let blocks = file.len() / 512;
    let block = any_block(seed, blocks);
    let expected = of_show(right, blocks, block);
    let check = check_right(file, right);
    let count = count_right(file, right);
    let show = show_right(file, block, expected);
    count_file(number_of(right), number_of(expected), tally);
    hold_all(check, count, show, tally);
}
