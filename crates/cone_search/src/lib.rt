// The cone of influence of the rows in a buffer, sought from the roots on: a table has for each row a slot with its mark, and the rows found so far.
#![tactic(auto)]

ghost use Rattle.std.specs.Prelude.{◌≡◌, cond, [], ◌∷◌, ℕ, ◌+◌, ◌*◌, ◌<◌, ◌≤◌, ◌^◌, length};
ghost use Rattle.memory.specs.Slots.{slot_at};
ghost use Rattle.netlist.specs.Limits.{most_folded_rows, fold_result_bytes};
ghost use Rattle.netlist.specs.Rows.{row_from_fields, decode_row, fanin_nodes};
ghost use Rattle.abstraction.specs.Compaction.{is_cone_root, cone_of_influence};
ghost use Rattle.blockfile.specs.RowCode.{fields_in};
ghost use Rattle.blockfile.specs.RowsStand.{held_row, held_rows};
ghost use Rattle.cone_search.specs.FoundRows.{
  HeldInside,
  marks_in,
  RowMarked,
  RowListed,
  Found,
  Pushed,
  RootsMarked,
};

use blockfile::Fields;

// Bit 15 of a slot, its row's mark. The other bits of slot k have the row that was found as number k.
pub const MARK: usize = 32768;

// The cone starts from the constant and the outputs.
fn is_root(kind: u8) -> bool
    ensures { result ≡ is_cone_root (row_from_fields kind 0 0 0 0) }
{
    kind == 0 || 5 < kind
}

// A row that has no mark is marked; the rest of its slot stays.
fn mark_row(slots: &mut [u8], row: usize, slot: usize)
    requires row_in_bounds { (2 * row + 2 ≤ length slots.old) × (slot < 2 ^ 15) }
    requires slot_value { slot ≡ slot_at slots.old row }
    ensures { RowMarked slots.old row slots.new }
{
    memory::set_slot(slots, row, slot + MARK);
}

// The row is found as number `found`; the mark in that slot stays.
fn list_row(slots: &mut [u8], found: usize, row: usize)
    requires { (2 * found + 2 ≤ length slots.old) × (row < 2 ^ 15) }
    ensures { RowListed slots.old found row slots.new }
{
    let slot = memory::slot_at(slots, found);
    let mark = slot / MARK * MARK;
    memory::set_slot(slots, found, mark + row);
}

// A row that has no mark yet is marked and found; answers how many are found then. What is no row changes nothing.
fn find_row(slots: &mut [u8], row: usize, rows: usize, found: usize) -> usize
    requires rows_le_most_folded_rows { (rows ≤ most_folded_rows) × (2 * rows ≤ length slots.old) }
    requires found { Found slots.old rows found }
    ensures { Pushed slots.old rows found (row ∷ []) slots.new result }
{
    if rows <= row {
        return found;
    }
    let slot = memory::slot_at(slots, row);
    if MARK <= slot {
        return found;
    }
    mark_row(slots, row, slot);
    list_row(slots, found, row);
    found + 1
}

// The rows that a row of these fields names are found.
fn find_fanins(slots: &mut [u8], row: Fields, rows: usize, found: usize) -> usize
    requires rows_le_most_folded_rows { (rows ≤ most_folded_rows) × (2 * rows ≤ length slots.old) }
    requires found { Found slots.old rows found }
    ensures { Pushed slots.old rows found (fanin_nodes (decode_row (fields_in row))) slots.new result }
{
    let count = blockfile::literal_count(row.kind);
    if count == 0 {
        return found;
    }
    let first = find_row(slots, row.a / 2, rows, found);
    if count == 1 {
        return first;
    }
    let second = find_row(slots, row.b / 2, rows, first);
    if count == 2 {
        return second;
    }
    find_row(slots, row.c / 2, rows, second)
}

// The rows that this row names are found.
fn visit_row(res: &[u8], slots: &mut [u8], row: usize, rows: usize, found: usize) -> usize
    requires row_lt_rows { (row < rows) × ((rows ≤ most_folded_rows) × (2 * rows ≤ length slots.old)) }
    requires fold_result_bytes_in_bounds { fold_result_bytes ≤ length res.now }
    requires found { Found slots.old rows found }
    ensures { Pushed slots.old rows found (fanin_nodes (held_row res.now row)) slots.new result }
{
    let fields = blockfile::read_row(res, row);
    find_fanins(slots, fields, rows, found)
}

// What the found rows name is found, until all are visited.
fn find_reached(res: &[u8], slots: &mut [u8], rows: usize, roots: usize)
    requires rows_le_most_folded_rows { (rows ≤ most_folded_rows) × (2 * rows ≤ length slots.old) }
    requires fold_result_bytes_in_bounds { fold_result_bytes ≤ length res.now }
    requires found { Found slots.old rows roots }
    requires roots_marked { RootsMarked res.now slots.old rows }
    ensures { HeldInside res.now rows → marks_in slots.new rows ≡ cone_of_influence (held_rows res.now rows) }
{
    let mut found = roots;
    let mut visited = 0;
    'visits: while visited < found {
        let slot = memory::slot_at(slots, visited);
        found = visit_row(res, slots, slot % MARK, rows, found);
        visited += 1;
    }
}

// The row is found if it is a root.
fn find_root(res: &[u8], slots: &mut [u8], row: usize, rows: usize, found: usize) -> usize
    requires row_lt_rows { (row < rows) × ((rows ≤ most_folded_rows) × (2 * rows ≤ length slots.old)) }
    requires fold_result_bytes_in_bounds { fold_result_bytes ≤ length res.now }
    requires found { Found slots.old rows found }
    ensures { Pushed slots.old rows found (cond (is_cone_root (held_row res.now row)) (row ∷ []) []) slots.new result }
{
    let offset = blockfile::row_offset(row);
    let kind = res[offset];
    if is_root(kind) {
        find_row(slots, row, rows, found)
    } else {
        found
    }
}

// The roots are found; answers how many there are.
fn find_roots(res: &[u8], slots: &mut [u8], rows: usize) -> usize
    requires rows_le_most_folded_rows { (rows ≤ most_folded_rows) × (2 * rows ≤ length slots.old) }
    requires fold_result_bytes_in_bounds { fold_result_bytes ≤ length res.now }
    requires by_index { (i : ℕ) → slot_at slots.old i ≡ 0 }
    ensures found { Found slots.new rows result }
    ensures roots_marked { RootsMarked res.now slots.new rows }
{
    let mut found = 0;
    for row in 0..rows {
        found = find_root(res, slots, row, rows, found);
    }
    found
}

// The marked rows are those of the cone of influence.
pub fn mark_cone(res: &[u8], slots: &mut [u8], rows: usize)
    requires rows_le_most_folded_rows { (rows ≤ most_folded_rows) × (2 * rows ≤ length slots.old) }
    requires fold_result_bytes_in_bounds { fold_result_bytes ≤ length res.now }
    ensures { HeldInside res.now rows → marks_in slots.new rows ≡ cone_of_influence (held_rows res.now rows) }
{
    memory::clear(slots);
    let roots = find_roots(res, slots, rows);
    find_reached(res, slots, rows, roots);
}
