// The rows of the cone of influence moved down in place, with new numbers.
#![tactic(auto)]

ghost use Rattle.std.specs.Prelude.{◌≡◌, List, ◌+◌, ◌*◌, ◌<◌, ◌≤◌, ◌^◌, length};
ghost use Rattle.memory.specs.Slots.{set_slot};
ghost use Rattle.memory.specs.Frames.{KeptOutside};
ghost use Rattle.netlist.specs.Limits.{most_folded_rows, fold_result_bytes, fold_work_bytes};
ghost use Rattle.netlist.specs.Rows.{Row};
ghost use Rattle.abstraction.specs.Compaction.{cone_of_influence, compact};
ghost use Rattle.blockfile.specs.RowsStand.{RowsStand, held_rows};
ghost use Rattle.cone_search.specs.FoundRows.{HeldInside, mark_at, marks_in};
ghost use Rattle.fold_memory.specs.WorkMap.{slots_start, slots_end};
ghost use Rattle.compaction.specs.Compactable.{Compactable};
ghost use Rattle.compaction.specs.Slots.{slot_count, mark_bit, Numbered};
ghost use Rattle.compaction.specs.Moves.{move_row, RowKept, MovedTo};

use cone_search::MARK;
use fold_memory::{SLOTS, SLOTS_END};

// As many slots are read, so that every literal has one.
const SLOT_COUNT: usize = 8192;

const READ_END: usize = SLOTS + 2 * SLOT_COUNT;

// The row's slot gets its number beside its mark; answers the next number.
fn number_row(slots: &mut [u8], row: usize, number: usize) -> usize
    requires { (2 * row + 2 ≤ length slots.old) × (number < 2 ^ 15) }
    ensures value { result ≡ number + mark_bit (mark_at slots.old row) }
    ensures slots_after { slots.new ≡ set_slot slots.old row (number + 2 ^ 15 * mark_bit (mark_at slots.old row)) }
{
    let slot = memory::slot_at(slots, row);
    let mark = slot / MARK;
    memory::set_slot(slots, row, number + MARK * mark);
    number + mark
}

// Each slot gets its row's new number: how many rows before it are marked.
fn number_rows(slots: &mut [u8], rows: usize)
    requires { (rows ≤ most_folded_rows) × (2 * rows ≤ length slots.old) }
    ensures { Numbered slots.new rows (marks_in slots.old rows) }
{
    let mut number = 0;
    for row in 0..rows {
        number = number_row(slots, row, number);
    }
}

// Each slot has its row's mark and new number: those of the cone of influence.
fn mark_rows(res: &[u8], slots: &mut [u8], rows: usize)
    requires rows_le_most_folded_rows { (rows ≤ most_folded_rows) × (2 * rows ≤ length slots.old) }
    requires fold_result_bytes_in_bounds { fold_result_bytes ≤ length res.now }
    ensures { HeldInside res.now rows → Numbered slots.new rows (cone_of_influence (held_rows res.now rows)) }
{
    cone_search::mark_cone(res, slots, rows);
    number_rows(slots, rows);
}

// The row, renumbered, is written as row `to`.
fn move_row(res: &mut [u8], slots: &[u8], row: usize, to: usize)
    requires row_lt_most_folded_rows { (row < most_folded_rows) × (to ≤ row) }
    requires fold_result_bytes_in_bounds { (fold_result_bytes ≤ length res.old) × (2 * slot_count ≤ length slots.now) }
    ensures { res.new ≡ move_row res.old slots.now row to }
{
    let fields = blockfile::read_row(res, row);
    let moved = blockfile::renumber_row(slots, SLOT_COUNT, fields);
    blockfile::write_row(res, to, moved);
}

// The row is moved if it is marked; answers the number of the next one.
fn keep_row(res: &mut [u8], slots: &[u8], row: usize, to: usize) -> usize
    requires row_lt_most_folded_rows { (row < most_folded_rows) × (to ≤ row) }
    requires fold_result_bytes_in_bounds { (fold_result_bytes ≤ length res.old) × (2 * slot_count ≤ length slots.now) }
    ensures { RowKept res.old slots.now row to res.new result }
{
    let slot = memory::slot_at(slots, row);
    if slot < MARK {
        return to;
    }
    move_row(res, slots, row, to);
    to + 1
}

// The marked rows are moved down, with new numbers; answers how many there are.
fn move_rows(res: &mut [u8], slots: &[u8], rows: usize) -> usize
    requires rows_le_most_folded_rows { rows ≤ most_folded_rows }
    requires fold_result_bytes_in_bounds { (fold_result_bytes ≤ length res.old) × (2 * slot_count ≤ length slots.now) }
    ensures { MovedTo res.old slots.now rows rows res.new result }
{
    let mut to = 0;
    for row in 0..rows {
        to = keep_row(res, slots, row, to);
    }
    to
}

// What the outputs do not reach goes, row 0 excepted; the other rows keep their order and are renumbered. Answers how many they are.
pub fn compact_rows(res: &mut [u8], work: &mut [u8], rows: usize) -> usize
    requires rows_le_most_folded_rows { rows ≤ most_folded_rows }
    requires fold_result_bytes_in_bounds { (fold_result_bytes ≤ length res.old) × (fold_work_bytes ≤ length work.old) }
    ensures value { (rs : List Row) → length rs ≡ rows → RowsStand rs res.old → Compactable rs → (result ≡ length (compact rs)) × RowsStand (compact rs) res.new }
    ensures res_len_unchanged { (length res.new ≡ length res.old) × (length work.new ≡ length work.old) }
    ensures kept_outside { KeptOutside slots_start slots_end work.old work.new }
{
    mark_rows(res, &mut work[SLOTS..SLOTS_END], rows);
    move_rows(res, &work[SLOTS..READ_END], rows)
}
