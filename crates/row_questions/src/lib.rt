// The questions of one row: 6, 7 and 9, its name, and what it adds to the counts.
#![tactic(auto)]

ghost use Rattle.std.specs.Prelude.{◌≡◌, ◌<◌, ◌≤◌, ◌/◌, take};
ghost use Rattle.netlist.specs.Rows.{decode_row};
ghost use Rattle.netlist.specs.FileFormat.{netlist_of};
ghost use Rattle.questions.specs.Questions.{same_name, names_node};
ghost use Rattle.blockfile.specs.RowCode.{fields_in, Small};
ghost use Rattle.blockfile.specs.CountCode.{counts_in};
ghost use Rattle.blockfile.specs.Ready.{HasRows};
ghost use Rattle.row_questions.specs.Tally.{output_tally, tally_of, counts_from};
ghost use Rattle.row_questions.specs.RowTested.{operand_by, TestsOf};

use blockfile::Fields;
use blockfile::count::Counts;
use netlist::MOST_PHASES;

// What the tests of a row found, its name's slot, and what it adds to the tally.
#[derive(Clone, Copy)]
pub struct RowTests {
    pub kind: bool,
    pub fields: bool,
    pub named: bool,
    pub slot: usize,
    pub literals: bool,
    pub tally: usize,
}

// A register's reset is 0, 1 or 2, which is X.
const MOST_RESET: u8 = 2;

pub const LABELS: usize = 65536;

// A name's slot: one for each label and phase of an input, each label of a register, each label and phase of an output.
const REGISTER_SLOTS: usize = MOST_PHASES * LABELS;

const OUTPUT_SLOTS: usize = REGISTER_SLOTS + LABELS;

pub const ALL_SLOTS: usize = OUTPUT_SLOTS + MOST_PHASES * LABELS;

// The tally counts inputs, registers, X registers and outputs in 16 bits each, outputs in the uppermost. So a walk over the rows carries one number, to which each kind adds a constant, and no row so far is an output exactly if that number is below `OUTPUT`.
const COUNT: usize = 65536;

const INPUT: usize = 1;

const REGISTER: usize = COUNT;

const UNKNOWN: usize = COUNT * COUNT;

const OUTPUT: usize = COUNT * COUNT * COUNT;

// Question 9: the literal names a row of the file that is no output.
fn names_node(file: &[u8], rows: usize, literal: usize) -> bool
    requires { HasRows file.now rows }
    ensures { result ≡ names_node (netlist_of file.now) literal }
{
    let node = literal / 2;
    if node < rows {
        let offset = blockfile::row_offset(node);
        file[offset] != 6
    } else {
        false
    }
}

// Question 9, of an operand of the gate in this row.
fn names_operand(file: &[u8], rows: usize, row: usize, unordered: bool, literal: usize) -> bool
    requires { HasRows file.now rows }
    ensures { result ≡ operand_by unordered (netlist_of file.now) row literal }
{
    if unordered {
        names_node(file, rows, literal)
    } else {
        literal / 2 < row
    }
}

// The tests of a row, by its kind; gates may stand in any order if `unordered`, and the tally is that of the rows before it.
pub fn test_row(
    file: &[u8],
    rows: usize,
    row: usize,
    unordered: bool,
    tally: usize,
    fields: Fields,
) -> RowTests
    requires has_rows { HasRows file.now rows × ((row < rows) × Small fields) }
    requires tally_value { tally ≡ tally_of (take row (netlist_of file.now)) }
    ensures { TestsOf (operand_by unordered) (netlist_of file.now) row (fields_in fields) result }
{
    let Fields {
        kind,
        reset,
        a,
        b,
        c,
    } = fields;
    let nodes = tally < OUTPUT;
    let node = row != 0 && nodes;
    match kind {
        0 => RowTests {
            kind: row == 0 && nodes,
            fields: reset == 0 && a == 0 && b == 0 && c == 0,
            named: false,
            slot: 0,
            literals: true,
            tally: 0,
        },
        1 => RowTests {
            kind: node,
            fields: reset == 0 && b < MOST_PHASES && c == 0,
            named: true,
            slot: MOST_PHASES * a + b,
            literals: true,
            tally: INPUT,
        },
        2 => RowTests {
            kind: node,
            fields: reset <= MOST_RESET && c == 0,
            named: true,
            slot: REGISTER_SLOTS + b,
            literals: names_node(file, rows, a),
            tally: REGISTER + UNKNOWN * usize::from(reset == 2),
        },
        3 | 4 => {
            let first = names_operand(file, rows, row, unordered, a);
            let second = names_operand(file, rows, row, unordered, b);
            RowTests {
                kind: node,
                fields: reset == 0 && c == 0,
                named: false,
                slot: 0,
                literals: first && second,
                tally: 0,
            }
        }
        5 => {
            let first = names_operand(file, rows, row, unordered, a);
            let second = names_operand(file, rows, row, unordered, b);
            let third = names_operand(file, rows, row, unordered, c);
            RowTests {
                kind: node,
                fields: reset == 0,
                named: false,
                slot: 0,
                literals: first && second && third,
                tally: 0,
            }
        }
        6 => RowTests {
            kind: row != 0,
            fields: reset == 0 && c < MOST_PHASES,
            named: true,
            slot: OUTPUT_SLOTS + MOST_PHASES * b + c,
            literals: names_node(file, rows, a),
            tally: OUTPUT,
        },
        7..=255 => RowTests {
            kind: false,
            fields: false,
            named: false,
            slot: 0,
            literals: false,
            tally: 0,
        },
    }
}

// The counts of this many rows, from their tally.
pub fn counts_of(rows: usize, tally: usize) -> Counts
    requires { tally / output_tally ≤ rows }
    ensures { counts_in result ≡ counts_from rows tally }
{
    let outputs = tally / OUTPUT;
    let nodes = rows - outputs;
    Counts {
        nodes,
        inputs: tally % COUNT,
        registers: tally / REGISTER % COUNT,
        unknown: tally / UNKNOWN % COUNT,
        outputs,
    }
}

// Whether row x has a name and row y has the same one.
pub fn same_name(x: Fields, y: Fields) -> bool
    ensures { result ≡ same_name (decode_row (fields_in x)) (decode_row (fields_in y)) }
{
    match x.kind {
        1 => y.kind == 1 && y.a == x.a && y.b == x.b,
        2 => y.kind == 2 && y.b == x.b,
        6 => y.kind == 6 && y.b == x.b && y.c == x.c,
        _ => false,
    }
}
