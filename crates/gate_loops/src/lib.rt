// Whether every gate can be placed, by a walk from each gate to those that it names.
// A slot of two bytes for each row: 0 while it is not seen, 1 + the row that led to it while it is open (1 where the walk started), SETTLED once all that it names is settled. A walk that comes to an open row has met a loop.
#![tactic(auto)]

ghost use Rattle.std.specs.Prelude.{◌≡◌, true, false, ◌*◌, ◌<◌, ◌≤◌, ◌^◌, length, ltb};
ghost use Rattle.memory.specs.Lists.{first_from};
ghost use Rattle.netlist.specs.Rows.{row_at};
ghost use Rattle.ordering.specs.GateOrder.{Grounded};
ghost use Rattle.ordering.specs.SortQuestions.{loop_question};
ghost use Rattle.gate_rows.specs.Sources.{source_rows, Source};
ghost use Rattle.gate_loops.specs.Walk.{first_slot, SourcesSettled, Unsettled, WalkReady, Walked};

use gate_rows::Layout;

const SETTLED: usize = 65535;

// The slot of the row before any walk: a row that is no gate waits for nothing.
fn first_slot(source: &[u8], layout: Layout, row: usize) -> usize
    requires { Source layout source.now (length (source_rows layout source.now)) × (row < length (source_rows layout source.now)) }
    ensures { (result ≡ first_slot (row_at (source_rows layout source.now) row)) × (result < 2 ^ 16) }
{
    let count = gate_rows::operand_count(source, layout, row);
    if count == 0 { SETTLED } else { 0 }
}

// The rows that are no gates are settled; no gate is seen.
fn settle_sources(source: &[u8], layout: Layout, slots: &mut [u8], rows: usize)
    requires { Source layout source.now rows × (2 * rows ≤ length slots.old) }
    ensures sources_settled { SourcesSettled (source_rows layout source.now) slots.new }
    ensures slots_len_unchanged { length slots.new ≡ length slots.old }
{
    for row in 0..rows {
        let slot = first_slot(source, layout, row);
        memory::set_slot(&mut *slots, row, slot);
    }
}

// The first node that the row names and that is not settled; 0, the constant, if all are.
pub fn unsettled_operand(
    source: &[u8],
    layout: Layout,
    slots: &[u8],
    rows: usize,
    row: usize,
) -> usize
    requires { Source layout source.now rows × ((row < rows) × (2 * rows ≤ length slots.now)) }
    ensures { Unsettled (source_rows layout source.now) slots.now row result }
{
    let count = gate_rows::operand_count(source, layout, row);
    for index in 0..count {
        let node = gate_rows::operand_at(source, layout, row, index);
        if memory::slot_at(slots, node) != SETTLED {
            return node;
        }
    }
    0
}

// Settles all that the gate in row `root` waits for, and then that gate; false if it waits for a loop.
fn settle(source: &[u8], layout: Layout, slots: &mut [u8], rows: usize, root: usize) -> bool
    requires source { Source layout source.now rows × ((root < rows) × (2 * rows ≤ length slots.old)) }
    requires walk_ready { WalkReady (source_rows layout source.now) slots.old root }
    ensures walked { result ≡ true → Walked (source_rows layout source.now) slots.old slots.new root }
    ensures not_grounded { result ≡ false → ¬ Grounded (source_rows layout source.now) root }
    ensures slots_len_unchanged { length slots.new ≡ length slots.old }
{
    memory::set_slot(&mut *slots, root, 1);
    let mut row = root;
    'walk: loop {
        let next = unsettled_operand(source, layout, slots, rows, row);
        if next == 0 {
            let slot = memory::slot_at(slots, row);
            memory::set_slot(&mut *slots, row, SETTLED);
            if slot == 1 {
                return true;
            }
            row = slot - 1;
        } else if memory::slot_at(slots, next) == 0 {
            let opened = row + 1;
            memory::set_slot(&mut *slots, next, opened);
            row = next;
        } else {
            return false;
        }
    }
}

// The lowest gate that is never placed; `rows` if there is none.
pub fn find_loop(source: &[u8], layout: Layout, slots: &mut [u8], rows: usize) -> usize
    requires { Source layout source.now rows × (2 * rows ≤ length slots.old) }
    ensures value { result ≡ first_from 0 rows (λ i. ltb 0 (loop_question (source_rows layout source.now) i)) }
    ensures slots_len_unchanged { length slots.new ≡ length slots.old }
{
    settle_sources(source, layout, &mut *slots, rows);
    for row in 0..rows {
        if memory::slot_at(slots, row) == 0 && !settle(source, layout, &mut *slots, rows, row) {
            return row;
        }
    }
    rows
}
