// The way from the lowest gate that is never placed to the loop of gates that it waits for, in a file or in an AIGER text, for whoever is to mend it.
#![tactic(auto)]

ghost use Rattle.std.specs.Prelude.{◌≡◌, ◌*◌, ◌<◌, ◌≤◌, length, IfSome};
ghost use Rattle.memory.specs.Slots.{slot_at};
ghost use Rattle.netlist.specs.FileFormat.{netlist_of};
ghost use Rattle.aiger.specs.AigerRows.{text_rows};
ghost use Rattle.gate_rows.specs.Sources.{source_rows, Source};
ghost use Rattle.aiger_lines.specs.Lines.{Counted};
ghost use Rattle.aiger_names.specs.Names.{name_bytes};
ghost use Rattle.loop_way.specs.Ways.{ClosedAt, IsWay};

use aiger_lines::Header;
use gate_rows::{Layout, Pairs};
use netlist::{LARGE_WORK_BYTES, MOST_FILE_ROWS};

// How many gates the way has, and which of them the last one names, counted from 0: there the loop starts. Both are 0 if there is no way.
// No `Option`: `IsWay` (specs/Ways.antt) speaks of both numbers, and of no way by 0 gates.
#[derive(Clone, Copy)]
pub struct Way {
    pub count: usize,
    pub start: usize,
}

fn no_way() -> Way
    ensures { (result.count ≡ 0) × (result.start ≡ 0) }
{
    Way { count: 0, start: 0 }
}

// The first of the `count` slots that has this row.
fn index_of(list: &[u8], count: usize, row: usize) -> Option<usize>
    requires { 2 * count ≤ length list.now }
    ensures { IfSome result (λ index. (index < count) × (slot_at list.now index ≡ row)) }
{
    for index in 0..count {
        if memory::slot_at(list, index) == row {
            return Some(index);
        }
    }
    None
}

// The way of the gates in these slots, if the last one names the row in one of them.
fn close(list: &[u8], count: usize, row: usize) -> Way
    requires { 2 * count ≤ length list.now }
    ensures { ClosedAt list.now count row result.count result.start }
{
    match index_of(list, count, row) {
        Some(start) => Way { count, start },
        None => no_way(),
    }
}

// From gate to gate, as the walk went that left these slots: an open row has 1 + the row that led to it.
fn follow(
    source: &[u8],
    layout: Layout,
    slots: &[u8],
    rows: usize,
    first: usize,
    list: &mut [u8],
) -> Way
    requires source { Source layout source.now rows × (first < rows) }
    requires rows_in_bounds { (2 * rows ≤ length slots.now) × (2 * rows ≤ length list.old) }
    ensures { IsWay (source_rows layout source.now) list.new result.count result.start }
{
    let mut row = first;
    for index in 0..rows {
        memory::set_slot(&mut *list, index, row);
        let next = gate_loops::unsettled_operand(source, layout, slots, rows, row);
        if next == 0 {
            return no_way();
        }
        let opened = row + 1;
        if memory::slot_at(slots, next) != opened {
            return close(list, index + 1, next);
        }
        row = next;
    }
    no_way()
}

// Slots for the rows of the greatest file.
fn slot_room() -> [u8; LARGE_WORK_BYTES]
    ensures { 65536 ≡ length result }
{
    [0; LARGE_WORK_BYTES]
}

// The way among so many rows.
fn find_in(source: &[u8], layout: Layout, rows: usize, list: &mut [u8]) -> Way
    requires { Source layout source.now rows × (2 * rows ≤ length list.old) }
    ensures { IsWay (source_rows layout source.now) list.new result.count result.start }
{
    let mut slots = slot_room();
    let first = gate_loops::find_loop(source, layout, &mut slots, rows);
    if first < rows {
        follow(source, layout, &slots, rows, first, list)
    } else {
        no_way()
    }
}

// The rows of the way in slots of `list`, which needs as many bytes as Sort's work for the greatest file. There is none if the file is refused for anything else than a loop.
pub fn find_way(file: &[u8], list: &mut [u8]) -> Way
    ensures { IsWay (netlist_of file.now) list.new result.count result.start }
{
    if list.len() < LARGE_WORK_BYTES {
        return no_way();
    }
    let Ok(accepted) = accept::accept_unordered(file) else {
        return no_way();
    };
    find_in(file, Layout::File, accepted.rows, list)
}

// ---- AIGER texts

// The way in a text whose lines are right by themselves; `names` is for names and pairs, as in Import.
fn find_in_pairs(text: &[u8], h: Header, from: usize, names: &mut [u8], list: &mut [u8]) -> Way
    requires counted { Counted text.now h from × (name_bytes ≤ length names.old) }
    requires in_bounds { 65536 ≤ length list.old }
    ensures { IsWay (text_rows text.now) list.new result.count result.start }
{
    let rows = 1 + aiger_lines::line_count(h);
    let fits = rows <= MOST_FILE_ROWS;
    if !fits {
        return no_way();
    }
    let base = 4 * rows;
    if !aiger_names::names_right(text, h, from, fits, base, &mut *names) {
        return no_way();
    }
    let counts = Pairs {
        inputs: h.inputs,
        registers: h.latches,
        gates: h.gates,
        outputs: h.outputs,
    };
    find_in(names, Layout::Pairs(counts), rows, list)
}

// The same, with an array for the names.
fn find_in_lines(text: &[u8], h: Header, from: usize, list: &mut [u8]) -> Way
    requires { Counted text.now h from × (65536 ≤ length list.old) }
    ensures { IsWay (text_rows text.now) list.new result.count result.start }
{
    let mut names = import::name_room();
    find_in_pairs(text, h, from, &mut names, list)
}

// The same for an AIGER text, and its rows as they stand before the gates are put in order.
pub fn find_text_way(text: &[u8], list: &mut [u8]) -> Way
    ensures { IsWay (text_rows text.now) list.new result.count result.start }
{
    if list.len() < LARGE_WORK_BYTES {
        return no_way();
    }
    let Some((h, from)) = aiger_lines::read_header(text) else {
        return no_way();
    };
    if aiger_lines::lines_right(text, h, from) {
        find_in_lines(text, h, from, list)
    } else {
        no_way()
    }
}
