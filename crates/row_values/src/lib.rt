// The value of a row in a step of Run, and what a row starts as.
#![tactic(auto)]

ghost use Rattle.std.specs.Prelude.{◌≡◌, true, cond, ◌&&◌, ◌+◌, ◌-◌, ◌/◌, ◌<◌, ◌≤◌, length};
ghost use Rattle.memory.specs.Fields.{byte_at, u16_at};
ghost use Rattle.netlist.specs.Rows.{row_at, is_unknown};
ghost use Rattle.netlist.specs.FileFormat.{row_offset, netlist_of};
ghost use Rattle.netlist.specs.Simulation.{bool_logic, bool_xor, literal_value, reset_value};
ghost use Rattle.netlist.specs.WellFormed.{NextBelow};
ghost use Rattle.blockfile.specs.RowCode.{if_known};
ghost use Rattle.row_values.specs.Values.{IsBinary, bit, truth_at, bit_from, bit_byte, no_value, held_in, value_in, RowToRun, RowInStep};

// Where a step has its bytes: its inputs from `base` on, the rows' values in memory from `current` on, and those of the last step from `previous` on.
// In the initial step a register takes the byte that stands for its row from `previous` on, later what its literal showed in the last step.
#[derive(Clone, Copy)]
pub struct Step {
    pub base: usize,
    pub current: usize,
    pub previous: usize,
    pub initial: bool,
}

// A byte that is no value: the answer for a row of an unknown kind, which no accepted file has.
const NO_VALUE: u8 = 2;

// The value of the literal among those from byte `from` on: its node's, changed if the literal is odd.
fn literal_value(work: &[u8], from: usize, literal: usize) -> u8
    requires { (from + literal / 2 < length work.now) × IsBinary work.now }
    ensures { (result ≡ bit_byte (literal_value bool_logic (bit_from work.now from) literal)) × (result ≤ 1) }
{
    let node = literal / 2;
    let at = from + node;
    let value = usize::from(work[at]);
    let sum = value + literal;
    (sum % 2) as u8
}

// The value of the literal in the field at `at`.
fn field_value(file: &[u8], at: usize, work: &[u8], from: usize) -> u8
    requires { (at + 2 ≤ length file.now) × ((from + u16_at file.now at / 2 < length work.now) × IsBinary work.now) }
    ensures { (result ≡ bit_byte (literal_value bool_logic (bit_from work.now from) (u16_at file.now at))) × (result ≤ 1) }
{
    let literal = blockfile::field_at(file, at);
    literal_value(work, from, literal)
}

fn and_of(x: u8, y: u8) -> u8
    requires { (x ≤ 1) × (y ≤ 1) }
    ensures { result ≡ bit_byte (bit x && bit y) }
{
    if x == 0 { 0 } else { y }
}

fn xor_of(x: u8, y: u8) -> u8
    requires { (x ≤ 1) × (y ≤ 1) }
    ensures { result ≡ bit_byte (bool_xor (bit x) (bit y)) }
{
    u8::from(x != y)
}

fn mux_of(selector: u8, x: u8, y: u8) -> u8
    requires { (selector ≤ 1) × ((x ≤ 1) × (y ≤ 1)) }
    ensures { result ≡ bit_byte (cond (bit selector) (bit x) (bit y)) }
{
    if selector == 0 { y } else { x }
}

// What the register that stands at `offset` holds in the step.
fn held_value(file: &[u8], row: usize, offset: usize, work: &[u8], step: Step) -> u8
    requires row_to_run { RowToRun file.now row × ((offset ≡ row_offset row) × (byte_at file.now offset ≡ 2)) }
    requires row_in_bounds { (step.previous + row < length work.now) × (NextBelow (length work.now - step.previous) (row_at (netlist_of file.now) row) × IsBinary work.now) }
    ensures { result ≡ bit_byte (held_in work.now step row (row_at (netlist_of file.now) row)) }
{
    let held = step.previous + row;
    let at_a = offset + 2;
    if step.initial {
        work[held]
    } else {
        field_value(file, at_a, work, step.previous)
    }
}

// The value of a row of this kind that stands at `offset`, no value if the kind is unknown; `used` of the step's inputs are of rows before it.
pub fn row_value(
    file: &[u8],
    row: usize,
    offset: usize,
    kind: u8,
    inputs: &[u8],
    used: usize,
    work: &[u8],
    step: Step,
) -> u8
    requires { RowInStep file.now row offset kind inputs.now used work.now step }
    ensures { result ≡ if_known kind (bit_byte (value_in work.now inputs.now step used row (row_at (netlist_of file.now) row))) no_value }
{
    let current = step.current;
    let at_a = offset + 2;
    let at_b = offset + 4;
    let at_c = offset + 6;
    match kind {
        0 => 0,
        1 => {
            let input = step.base + used;
            inputs[input]
        }
        2 => held_value(file, row, offset, work, step),
        3 => {
            let x = field_value(file, at_a, work, current);
            let y = field_value(file, at_b, work, current);
            and_of(x, y)
        }
        4 => {
            let x = field_value(file, at_a, work, current);
            let y = field_value(file, at_b, work, current);
            xor_of(x, y)
        }
        5 => {
            let selector = field_value(file, at_a, work, current);
            let x = field_value(file, at_b, work, current);
            let y = field_value(file, at_c, work, current);
            mux_of(selector, x, y)
        }
        6 => field_value(file, at_a, work, current),
        // By `return`: without it a row takes an instruction more.
        7..=255 => return NO_VALUE,
    }
}

// What the row starts as; 0 if it is no register. If its reset is unknown, its choice stands at `choice`.
pub fn start_value(file: &[u8], row: usize, choices: &[u8], choice: usize) -> u8
    requires { RowToRun file.now row × ((is_unknown (row_at (netlist_of file.now) row) ≡ true → choice < length choices.now) × IsBinary choices.now) }
    ensures { result ≡ bit_byte (reset_value bool_logic (λ l. truth_at choices.now choice) (row_at (netlist_of file.now) row)) }
{
    let offset = blockfile::row_offset(row);
    let second = offset + 1;
    let kind = file[offset];
    let reset = file[second];
    if kind == 2 {
        match reset {
            0 => 0,
            1 => 1,
            _ => choices[choice],
        }
    } else {
        0
    }
}

// 1 if the row is an X register, else 0.
pub fn unknown_at(file: &[u8], row: usize) -> usize
    requires { RowToRun file.now row }
    ensures { (result ≡ cond (is_unknown (row_at (netlist_of file.now) row)) 1 0) × (result ≤ 1) }
{
    let offset = blockfile::row_offset(row);
    let second = offset + 1;
    let kind = file[offset];
    let reset = file[second];
    usize::from(kind == 2 && reset == 2)
}
