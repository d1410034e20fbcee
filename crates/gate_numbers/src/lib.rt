// The new number of each row, where every gate can be placed.
// A slot of two bytes: 0 while a row has no number, READY while it is a gate whose operands have theirs, then PLACED + its number.
#![tactic(auto)]

ghost use Rattle.std.specs.Prelude.{◌≡◌, cond, ◌+◌, ◌*◌, ◌<◌, ◌≤◌, ◌^◌, length, eqb};
ghost use Rattle.memory.specs.Slots.{set_slot};
ghost use Rattle.netlist.specs.Rows.{row_at};
ghost use Rattle.questions.specs.Questions.{no_refusal};
ghost use Rattle.ordering.specs.GateOrder.{is_source, rows_that};
ghost use Rattle.ordering.specs.SortQuestions.{loop_refusal};
ghost use Rattle.gate_rows.specs.Sources.{source_rows, Source};
ghost use Rattle.ready_gates.specs.ReadySlots.{ReadyRoom, ReadyMarked};
ghost use Rattle.gate_users.specs.Users.{Listed};
ghost use Rattle.gate_numbers.specs.Numbers.{placed_slot, is_placed_in, of_kinds, KindsFit, KindsNumbered, SourcesNumbered, gate_of, Woken, Placed, NextGate, GatePlaced, NodesPlaced, Numbered};

use gate_rows::Layout;

// A placed row's slot is this, plus its new number.
pub const PLACED: usize = 32768;

// Whether the row is a gate, and all that it names is placed.
fn operands_placed(source: &[u8], layout: Layout, slots: &[u8], rows: usize, row: usize) -> bool
    requires { Source layout source.now rows × ((row < rows) × (2 * rows ≤ length slots.now)) }
    ensures { result ≡ gate_of (source_rows layout source.now) (is_placed_in slots.now) row }
{
    let count = gate_rows::operand_count(source, layout, row);
    for index in 0..count {
        let node = gate_rows::operand_at(source, layout, row, index);
        if memory::slot_at(slots, node) < PLACED {
            return false;
        }
    }
    0 < count
}

// The row gets the number if its kind is one of `least` to `most`; answers the next number.
fn number_row(
    source: &[u8],
    layout: Layout,
    slots: &mut [u8],
    rows: usize,
    row: usize,
    least: u8,
    most: u8,
    number: usize,
) -> usize
    requires source { Source layout source.now rows × ((row < rows) × (2 * rows ≤ length slots.old)) }
    requires number_bound { placed_slot + number < 2 ^ 16 }
    ensures value { result ≡ number + cond (of_kinds least most (row_at (source_rows layout source.now) row)) 1 0 }
    ensures slots_after { slots.new ≡ cond (of_kinds least most (row_at (source_rows layout source.now) row)) (set_slot slots.old row (placed_slot + number)) slots.old }
{
    let kind = gate_rows::row_kind(source, layout, row);
    if least <= kind && kind <= most {
        let slot = PLACED + number;
        memory::set_slot(slots, row, slot);
        number + 1
    } else {
        number
    }
}

// The rows of kinds `least` to `most` are numbered in row order, from `number` on; answers the next number.
fn number_kinds(
    source: &[u8],
    layout: Layout,
    slots: &mut [u8],
    rows: usize,
    least: u8,
    most: u8,
    number: usize,
) -> usize
    requires { Source layout source.now rows × (KindsFit (source_rows layout source.now) least most number rows × (2 * rows ≤ length slots.old)) }
    ensures kinds_numbered { KindsNumbered (source_rows layout source.now) least most number slots.old slots.new }
    ensures value { result ≡ number + length (rows_that (source_rows layout source.now) (of_kinds least most)) }
{
    let mut next = number;
    for row in 0..rows {
        next = number_row(source, layout, slots, rows, row, least, most, next);
    }
    next
}

// The sources are numbered; answers the next number.
fn number_sources(source: &[u8], layout: Layout, work: &mut [u8], rows: usize) -> usize
    requires { Source layout source.now rows × (2 * rows ≤ length work.old) }
    ensures value { result ≡ length (rows_that (source_rows layout source.now) is_source) }
    ensures sources_numbered { SourcesNumbered (source_rows layout source.now) work.new }
{
    memory::clear(&mut *work);
    number_kinds(source, layout, work, rows, 0, 2, 0)
}

// The row becomes ready if it is a gate and all that it names is placed; answers a row below which none is ready, as none was below `low`.
fn wake_row(
    source: &[u8],
    layout: Layout,
    work: &mut [u8],
    rows: usize,
    row: usize,
    low: usize,
) -> usize
    requires { Source layout source.now rows × ((row < rows) × ReadyMarked rows work.old low) }
    ensures woken { Woken (source_rows layout source.now) (eqb row) work.old work.new }
    ensures ready_marked { ReadyMarked rows work.new result × (result ≤ low) }
{
    if operands_placed(source, layout, work, rows, row) {
        ready_gates::make_ready(work, rows, row, low)
    } else {
        low
    }
}

// The gates that name sources alone become ready.
fn find_ready(source: &[u8], layout: Layout, work: &mut [u8], rows: usize)
    requires { Source layout source.now rows × (SourcesNumbered (source_rows layout source.now) work.old × ReadyRoom rows work.old) }
    ensures { Placed (source_rows layout source.now) (rows_that (source_rows layout source.now) is_source) work.new × ReadyMarked rows work.new 0 }
{
    for row in 0..rows {
        wake_row(source, layout, &mut *work, rows, row, 0);
    }
}

// The gate gets its number, and the gates that name it become ready if all that they name is placed; answers a row below which none is ready.
fn place_gate(
    source: &[u8],
    layout: Layout,
    users: &[u8],
    work: &mut [u8],
    rows: usize,
    gate: usize,
    number: usize,
) -> usize
    requires source { Source layout source.now rows × NextGate (source_rows layout source.now) rows work.old gate }
    requires listed { Listed (source_rows layout source.now) users.now rows × (8 * rows ≤ length users.now) }
    requires number_bound { placed_slot + number < 2 ^ 16 }
    ensures gate_placed { GatePlaced (source_rows layout source.now) rows work.old gate number work.new }
    ensures ready_marked { ReadyMarked rows work.new result × (result ≤ gate) }
{
    let slot = PLACED + number;
    memory::set_slot(&mut *work, gate, slot);
    let mut low = gate;
    let mut user = gate_users::first_user(source, layout, users, rows, gate);
    'users: while user != 0 {
        low = wake_row(source, layout, &mut *work, rows, user, low);
        user = gate_users::next_user(source, layout, users, rows, user, gate);
    }
    low
}

// Always the lowest ready gate is placed, and numbered from `number` on; answers the next number.
fn place_gates(
    source: &[u8],
    layout: Layout,
    users: &[u8],
    work: &mut [u8],
    rows: usize,
    number: usize,
) -> usize
    requires source { Source layout source.now rows × (loop_refusal (source_rows layout source.now) ≡ no_refusal) }
    requires listed { Listed (source_rows layout source.now) users.now rows × (8 * rows ≤ length users.now) }
    requires placed { Placed (source_rows layout source.now) (rows_that (source_rows layout source.now) is_source) work.old × ReadyMarked rows work.old 0 }
    requires number_value { number ≡ length (rows_that (source_rows layout source.now) is_source) }
    ensures { NodesPlaced (source_rows layout source.now) work.new result }
{
    let mut low = 0;
    for next in number..rows {
        let row = ready_gates::lowest_ready(&mut *work, rows, low);
        if row == rows {
            return next;
        }
        low = place_gate(source, layout, users, &mut *work, rows, row, next);
    }
    rows
}

// Numbers all rows; `users` is for the lists.
pub fn number_rows(source: &[u8], layout: Layout, users: &mut [u8], work: &mut [u8], rows: usize)
    requires source { Source layout source.now rows × (loop_refusal (source_rows layout source.now) ≡ no_refusal) }
    requires rows_in_bounds { (8 * rows ≤ length users.old) × ReadyRoom rows work.old }
    ensures numbered { Numbered (source_rows layout source.now) work.new }
    ensures users_len_unchanged { (length users.new ≡ length users.old) × (length work.new ≡ length work.old) }
{
    let sources = number_sources(source, layout, &mut *work, rows);
    find_ready(source, layout, &mut *work, rows);
    gate_users::list_users(source, layout, &mut *users, rows);
    let nodes = place_gates(source, layout, users, &mut *work, rows, sources);
    number_kinds(source, layout, work, rows, 6, 6, nodes);
}
