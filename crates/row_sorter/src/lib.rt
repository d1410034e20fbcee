// Rows whose gates stand in any order, written as a file in an order that Check accepts.
// Three passes: the first looks for a loop, in the slots alone; the second numbers the rows, and keeps in the result which gates name which node; the third writes the rows over that.
#![tactic(auto)]

ghost use Rattle.std.specs.Prelude.{◌≡◌, cond, ◌*◌, ◌<◌, ◌≤◌, length, ltb};
ghost use Rattle.memory.specs.Lists.{first_from};
ghost use Rattle.netlist.specs.Limits.{row_work_bytes};
ghost use Rattle.netlist.specs.FileFormat.{blocks_for, file_in};
ghost use Rattle.questions.specs.Questions.{no_refusal};
ghost use Rattle.ordering.specs.GateOrder.{sorted_netlist};
ghost use Rattle.ordering.specs.SortQuestions.{loop_question, loop_refusal};
ghost use Rattle.blockfile.specs.RowsStand.{RowsStand};
ghost use Rattle.netlist.specs.Rows.{row_at, encode_row};
ghost use Rattle.blockfile.specs.RowCode.{fields_in, Small};
ghost use Rattle.blockfile.specs.Renumbering.{renumber_fields, renumber_in};
ghost use Rattle.gate_rows.specs.Sources.{source_rows, Source};
ghost use Rattle.row_sorter.specs.Placing.{Placeable, row_placed};

use blockfile::Fields;
use gate_numbers::PLACED;
use gate_rows::Layout;

// The row's fields, renumbered. Each layout renumbers for itself, so that the compiler knows a file's kind as a byte that it looks up.
fn move_row(source: &[u8], layout: Layout, slots: &[u8], rows: usize, row: usize) -> Fields
    requires { Placeable layout source.now slots.now rows × (row < rows) }
    ensures { (fields_in result ≡ renumber_fields (renumber_in slots.now rows) (encode_row (row_at (source_rows layout source.now) row))) × Small result }
{
    match layout {
        Layout::File => {
            let fields = gate_rows::source_row(source, layout, row);
            blockfile::renumber_row(slots, rows, fields)
        }
        Layout::Pairs(_) => {
            let fields = gate_rows::source_row(source, layout, row);
            blockfile::renumber_row(slots, rows, fields)
        }
    }
}

// The row, renumbered, is written where its number says.
fn place_row(source: &[u8], layout: Layout, res: &mut [u8], slots: &[u8], rows: usize, row: usize)
    requires { Placeable layout source.now slots.now rows × ((row < rows) × (512 * blocks_for rows ≤ length res.old)) }
    ensures { res.new ≡ row_placed (source_rows layout source.now) slots.now rows row res.old }
{
    let moved = move_row(source, layout, slots, rows, row);
    let slot = memory::slot_at(slots, row);
    let to = slot % PLACED;
    blockfile::write_row(res, to, moved);
}

// All rows are, one after the other.
fn place_rows(source: &[u8], layout: Layout, res: &mut [u8], slots: &[u8], rows: usize)
    requires { Placeable layout source.now slots.now rows × (512 * blocks_for rows ≤ length res.old) }
    ensures rows_stand { RowsStand (sorted_netlist (source_rows layout source.now)) res.new }
    ensures res_len_unchanged { length res.new ≡ length res.old }
{
    for row in 0..rows {
        place_row(source, layout, &mut *res, slots, rows, row);
    }
}

// The sorted file, where every gate can be placed: the second pass and the third.
fn write_sorted(source: &[u8], layout: Layout, res: &mut [u8], slots: &mut [u8], rows: usize)
    requires source { Source layout source.now rows × (loop_refusal (source_rows layout source.now) ≡ no_refusal) }
    requires rows_in_bounds { (512 * blocks_for rows ≤ length res.old) × (row_work_bytes rows ≤ length slots.old) }
    ensures res_after { res.new ≡ file_in (sorted_netlist (source_rows layout source.now)) res.old }
    ensures slots_len_unchanged { length slots.new ≡ length slots.old }
{
    gate_numbers::number_rows(source, layout, &mut *res, &mut *slots, rows);
    place_rows(source, layout, &mut *res, slots, rows);
    blocks::writer::write_file(res, rows);
}

// Puts the rows in order. The answer is the lowest gate that is never placed, and then the result is untouched; or `rows`, and then the sorted file stands in the result, zeros after it.
pub fn sort_rows(
    source: &[u8],
    layout: Layout,
    res: &mut [u8],
    slots: &mut [u8],
    rows: usize,
) -> usize
    requires { Source layout source.now rows × ((512 * blocks_for rows ≤ length res.old) × (row_work_bytes rows ≤ length slots.old)) }
    ensures value { result ≡ first_from 0 rows (λ i. ltb 0 (loop_question (source_rows layout source.now) i)) }
    ensures res_after { res.new ≡ cond (ltb result rows) res.old (file_in (sorted_netlist (source_rows layout source.now)) res.old) }
    ensures slots_len_unchanged { length slots.new ≡ length slots.old }
{
    let first = gate_loops::find_loop(source, layout, &mut *slots, rows);
    if first < rows {
        return first;
    }
    write_sorted(source, layout, res, slots, rows);
    first
}
