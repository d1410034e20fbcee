// The rows that are sorted, and the gates among them: how many operands a row has, and the nodes that they name. The rows stand in a netlist file, or as pairs.
#![tactic(auto)]

ghost use Rattle.std.specs.Prelude.{◌≡◌, ◌<◌, ◌≤◌, ◌^◌, length, get_or};
ghost use Rattle.netlist.specs.Limits.{most_rows};
ghost use Rattle.netlist.specs.Rows.{row_at, kind_of, encode_row};
ghost use Rattle.ordering.specs.GateOrder.{operands_of};
ghost use Rattle.blockfile.specs.RowCode.{fields_in, Small};
ghost use Rattle.gate_rows.specs.Sources.{pair_count, pair_row, pair_kind, source_rows, operand_offset, PairStands, Source};

use blockfile::Fields;

// Rows that stand as pairs, by kind: the constant, then inputs, registers, ANDs and outputs, and how many of each.
#[derive(Clone, Copy)]
pub struct Pairs {
    pub inputs: usize,
    pub registers: usize,
    pub gates: usize,
    pub outputs: usize,
}

// How rows stand in the bytes that are sorted: as a netlist file, or as pairs.
#[derive(Clone, Copy)]
pub enum Layout {
    File,
    Pairs(Pairs),
}

// The kind of a row that stands as a pair.
fn pair_kind(pairs: Pairs, row: usize) -> u8
    requires { pair_count pairs ≤ most_rows }
    ensures { result ≡ pair_kind pairs row }
{
    let registers = pairs.inputs + pairs.registers;
    let gates = registers + pairs.gates;
    if row == 0 {
        0
    } else if row <= pairs.inputs {
        1
    } else if row <= registers {
        2
    } else if row <= gates {
        3
    } else {
        6
    }
}

pub fn row_kind(source: &[u8], layout: Layout, row: usize) -> u8
    requires { Source layout source.now (length (source_rows layout source.now)) × (row < length (source_rows layout source.now)) }
    ensures { result ≡ kind_of (row_at (source_rows layout source.now) row) }
{
    match layout {
        Layout::File => {
            let offset = blockfile::row_offset(row);
            source[offset]
        }
        Layout::Pairs(pairs) => pair_kind(pairs, row),
    }
}

// How many operands the row has: none, if it is no gate.
pub fn operand_count(source: &[u8], layout: Layout, row: usize) -> usize
    requires { Source layout source.now (length (source_rows layout source.now)) × (row < length (source_rows layout source.now)) }
    ensures { (result ≡ length (operands_of (row_at (source_rows layout source.now) row))) × (result ≤ 3) }
{
    let kind = row_kind(source, layout, row);
    match kind {
        3 => 2,
        4 => 2,
        5 => 3,
        _ => 0,
    }
}

// Where operand number `index` of a row stands.
fn operand_offset(layout: Layout, row: usize, index: usize) -> usize
    requires { (row < most_rows) × (index < 3) }
    ensures { result ≡ operand_offset layout row index }
{
    match layout {
        Layout::File => {
            let offset = blockfile::row_offset(row);
            let first = offset + 2;
            first + 2 * index
        }
        Layout::Pairs(_) => 4 * row + 2 * index,
    }
}

// The node that operand number `index` of the row names.
pub fn operand_at(source: &[u8], layout: Layout, row: usize, index: usize) -> usize
    requires source { Source layout source.now (length (source_rows layout source.now)) × (row < length (source_rows layout source.now)) }
    requires index_in_bounds { (index < length (operands_of (row_at (source_rows layout source.now) row))) × (index < 3) }
    ensures { (result ≡ get_or (operands_of (row_at (source_rows layout source.now) row)) index 0) × (result < 2 ^ 15) }
{
    let at = operand_offset(layout, row, index);
    blockfile::field_at(source, at) / 2
}

// The fields of a row that stands as a pair.
fn pair_fields(source: &[u8], pairs: Pairs, row: usize) -> Fields
    requires { PairStands pairs source.now row }
    ensures { (fields_in result ≡ encode_row (pair_row pairs source.now row)) × Small result }
{
    let kind = pair_kind(pairs, row);
    let at = 4 * row;
    let behind = at + 2;
    let first = blockfile::field_at(source, at);
    let second = blockfile::field_at(source, behind);
    match kind {
        0 => Fields {
            kind: 0,
            reset: 0,
            a: 0,
            b: 0,
            c: 0,
        },
        1 => {
            let label = row - 1;
            Fields {
                kind: 1,
                reset: 0,
                a: label,
                b: 0,
                c: 0,
            }
        }
        2 => {
            let start = 1 + pairs.inputs;
            let label = row - start;
            let next = first;
            let reset = second as u8;
            Fields {
                kind: 2,
                reset,
                a: next,
                b: label,
                c: 0,
            }
        }
        3 => Fields {
            kind: 3,
            reset: 0,
            a: first,
            b: second,
            c: 0,
        },
        _ => {
            let start = 1 + pairs.inputs + pairs.registers + pairs.gates;
            let label = row - start;
            Fields {
                kind: 6,
                reset: 0,
                a: first,
                b: label,
                c: 0,
            }
        }
    }
}

// The fields of the row.
pub fn source_row(source: &[u8], layout: Layout, row: usize) -> Fields
    requires { Source layout source.now (length (source_rows layout source.now)) × (row < length (source_rows layout source.now)) }
    ensures { (fields_in result ≡ encode_row (row_at (source_rows layout source.now) row)) × Small result }
{
    match layout {
        Layout::File => blockfile::read_row(source, row),
        Layout::Pairs(pairs) => pair_fields(source, pairs, row),
    }
}
