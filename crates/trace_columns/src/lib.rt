// Where the values of the original's inputs, or X registers, stand among those that the folded netlist is given, and these values as the original takes them.
// A column is a place in the folded netlist's values, from 1 on, and 0 where the fold kept nothing. Columns stand as slots, for each phase one for each of the original's inputs, in row order; X registers have phase 0 alone.
#![tactic(auto)]

ghost use Rattle.std.specs.Prelude.{◌≡◌, true, ◌+◌, ◌*◌, ◌<◌, ◌≤◌, ◌^◌, length, replicate};
ghost use Rattle.std.proofs.lemmas.List.Edits.{sets};
ghost use Rattle.memory.specs.Lists.{count_if, join_below};
ghost use Rattle.memory.specs.Slots.{slot_at};
ghost use Rattle.netlist.specs.Limits.{most_rows};
ghost use Rattle.netlist.specs.Rows.{decode_row};
ghost use Rattle.netlist.specs.FileFormat.{row_offset, read_fields, netlist_of};
ghost use Rattle.blockfile.specs.RowCode.{fields_in, Small};
ghost use Rattle.blockfile.specs.Ready.{HasRows};
ghost use Rattle.trace_columns.specs.Columns.{wanted_row, NameIs, LabelPut, LabelsListed, FoundFrom, HasLabel, RowThere, RowMapped, MapReady, ColumnsOf};
ghost use Rattle.trace_columns.specs.TraceValues.{value_in, values_in, step_in, ValuesReady, StepsReady};

use blockfile::Fields;

// Room for the labels of the original's inputs, two bytes each.
pub const LABEL_BYTES: usize = 2016;

// What a row is asked for: whether it is an X register, or an input; then its label and its phase.
#[derive(Clone, Copy)]
struct Name {
    wanted: bool,
    label: usize,
    phase: usize,
}

fn name_of(fields: Fields, unknown: bool) -> Name
    requires { Small fields }
    ensures { NameIs (decode_row (fields_in fields)) unknown result }
{
    if unknown {
        Name {
            wanted: fields.kind == 2 && fields.reset == 2,
            label: fields.b,
            phase: 0,
        }
    } else {
        Name {
            wanted: fields.kind == 1,
            label: fields.a,
            phase: fields.b,
        }
    }
}

fn name_at(file: &[u8], row: usize, unknown: bool) -> Name
    requires { (row < most_rows) × (row_offset row + 8 ≤ length file.now) }
    ensures { NameIs (decode_row (read_fields file.now row)) unknown result }
{
    let fields = blockfile::read_row(file, row);
    name_of(fields, unknown)
}

// How many rows of the file are X registers, or inputs.
pub fn count_rows(file: &[u8], rows: usize, unknown: bool) -> usize
    requires { HasRows file.now rows }
    ensures { (result ≡ count_if (wanted_row unknown) (netlist_of file.now)) × (result ≤ rows) }
{
    let mut count = 0;
    for row in 0..rows {
        let name = name_at(file, row, unknown);
        count += name.wanted as usize;
    }
    count
}

// If row `row` is asked for, its label goes to slot `count`; answers how many there are then.
fn list_label(file: &[u8], row: usize, unknown: bool, labels: &mut [u8], count: usize) -> usize
    requires row_lt_most_rows { (row < most_rows) × (row_offset row + 8 ≤ length file.now) }
    requires count_in_bounds { (wanted_row unknown (decode_row (read_fields file.now row)) ≡ true → 2 * count + 2 ≤ length labels.old) × (count ≤ row) }
    ensures { LabelPut (decode_row (read_fields file.now row)) unknown labels.old labels.new count result }
{
    let name = name_at(file, row, unknown);
    if !name.wanted {
        return count;
    }
    memory::set_slot(labels, count, name.label);
    count + 1
}

// Their labels as slots, in row order; answers how many there are.
pub fn list_labels(file: &[u8], rows: usize, unknown: bool, labels: &mut [u8]) -> usize
    requires { HasRows file.now rows × (2 * count_if (wanted_row unknown) (netlist_of file.now) ≤ length labels.old) }
    ensures { (result ≡ count_if (wanted_row unknown) (netlist_of file.now)) × LabelsListed (wanted_row unknown) (netlist_of file.now) rows labels.new }
{
    let mut count = 0;
    for row in 0..rows {
        count = list_label(file, row, unknown, &mut *labels, count);
    }
    count
}

// The first of slots `from` to `count` - 1 that has the label, or `count`.
fn find_from(labels: &[u8], from: usize, count: usize, label: usize) -> usize
    requires { (2 * count ≤ length labels.now) × (from ≤ count) }
    ensures { FoundFrom labels.now from count label result }
{
    for index in from..count {
        let found = memory::slot_at(labels, index);
        if found == label {
            return index;
        }
    }
    count
}

// A slot that has the label: from `from` on, else from the first. A fold keeps its rows in order, so that it is found at once.
fn find_label(labels: &[u8], from: usize, count: usize, label: usize) -> usize
    requires { (2 * count ≤ length labels.now) × ((from ≤ count) × HasLabel labels.now count label) }
    ensures { (result < count) × (slot_at labels.now result ≡ label) }
{
    let later = find_from(labels, from, count, label);
    if later < count {
        return later;
    }
    find_from(labels, 0, count, label)
}

// The next column, and the slot after the one that was found last.
#[derive(Clone, Copy)]
struct Spot {
    column: usize,
    from: usize,
}

// Row `row` of the folded netlist: if it is asked for, its column goes to its slot.
fn map_row(
    folded: &[u8],
    row: usize,
    unknown: bool,
    phases: usize,
    labels: &[u8],
    count: usize,
    columns: &mut [u8],
    spot: Spot,
) -> Spot
    requires row_lt_most_rows { (row < most_rows) × (row_offset row + 8 ≤ length folded.now) }
    requires column_le_row { (spot.column ≤ row) × (spot.from ≤ count) }
    requires row_there { RowThere (decode_row (read_fields folded.now row)) unknown phases labels.now count columns.old }
    ensures { RowMapped (decode_row (read_fields folded.now row)) unknown labels.now count columns.old columns.new spot.column result.column × (result.from ≤ count) }
{
    let name = name_at(folded, row, unknown);
    if !name.wanted {
        return spot;
    }
    let index = find_label(labels, spot.from, count, name.label);
    let column = spot.column + 1;
    let slot = name.phase * count + index;
    memory::set_slot(columns, slot, column);
    Spot {
        column,
        from: index + 1,
    }
}

// The columns of all rows of the folded netlist, in cleared memory.
pub fn map_rows(
    folded: &[u8],
    rows: usize,
    unknown: bool,
    phases: usize,
    labels: &[u8],
    count: usize,
    columns: &mut [u8],
)
    requires has_rows { HasRows folded.now rows × MapReady (wanted_row unknown) (netlist_of folded.now) phases labels.now count columns.old }
    requires columns_value { columns.old ≡ replicate (length columns.old) 0 }
    ensures { ColumnsOf (wanted_row unknown) (netlist_of folded.now) rows phases labels.now count columns.new }
{
    let mut spot = Spot { column: 0, from: 0 };
    for row in 0..rows {
        spot = map_row(
            folded,
            row,
            unknown,
            phases,
            labels,
            count,
            &mut *columns,
            spot,
        );
    }
}

// The value of a column, of those that stand from `base` on; 0 if there is none.
fn value_of(values: &[u8], base: usize, column: usize) -> u8
    requires { base + column ≤ length values.now }
    ensures { result ≡ value_in values.now base column }
{
    if column == 0 {
        return 0;
    }
    values[base + column - 1]
}

// Puts the values of `count` slots, from slot `first` on, to bytes `to` and on.
pub fn put_values(
    columns: &[u8],
    first: usize,
    count: usize,
    values: &[u8],
    base: usize,
    trace: &mut [u8],
    to: usize,
)
    requires { ValuesReady columns.now first count values.now base trace.old to }
    ensures { trace.new ≡ sets trace.old to (values_in columns.now first count values.now base) }
{
    for index in 0..count {
        let column = memory::slot_at(columns, first + index);
        trace[to + index] = value_of(values, base, column);
    }
}

// Puts the values of all steps: step t has those of phase t % `phases` in group t / `phases`, and a group has `kept` values.
pub fn put_steps(
    columns: &[u8],
    count: usize,
    phases: usize,
    kept: usize,
    steps: usize,
    values: &[u8],
    trace: &mut [u8],
    to: usize,
)
    requires { StepsReady columns.now count phases kept steps values.now trace.old to }
    ensures { trace.new ≡ sets trace.old to (join_below steps (step_in columns.now count phases kept values.now)) }
{
    let mut target = to;
    for step in 0..steps {
        let first = step % phases * count;
        let base = step / phases * kept;
        put_values(columns, first, count, values, base, &mut *trace, target);
        target += count;
    }
}
