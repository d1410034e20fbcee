// Run's steps: the rows' values in a step, and what the outputs show of them.
// Work has room for the rows' values twice, from byte 0 on and from byte `rows` on. A step puts its own where those of the step before the last stood, and finds those of the last step beside them.
#![tactic(auto)]

ghost use Rattle.std.specs.Prelude.{◌≡◌, List, ◌++◌, map, ℕ, ◌+◌, ◌*◌, ◌≤◌, length, take, drop};
ghost use Rattle.std.proofs.lemmas.List.Edits.{sets};
ghost use Rattle.memory.specs.Lists.{count_if};
ghost use Rattle.netlist.specs.Rows.{is_input, is_unknown, is_output};
ghost use Rattle.netlist.specs.FileFormat.{netlist_of};
ghost use Rattle.netlist.specs.Simulation.{bool_logic, reset_value};
ghost use Rattle.netlist.specs.RunLayout.{place_among, run_bytes};
ghost use Rattle.netlist.specs.WellFormed.{CheckedRows};
ghost use Rattle.blockfile.specs.BlockRows.{BlockRows};
ghost use Rattle.blockfile.specs.Ready.{Ready};
ghost use Rattle.row_values.specs.Values.{IsBinary, bit_bytes};
ghost use Rattle.simulate.specs.StepValues.{step_from, next_step, reset_choices};
ghost use Rattle.simulate.specs.Steps.{ValuesRoom, TwoHalves, ValuesStand, InputsFit, Given, StepReady, Stepped};

use blockfile::{BLOCK_BYTES, BLOCK_ROWS, FIRST_ROW, ROW_BYTES};
use row_values::Step;

// What a run goes by: the rows of the file, how many of them are nodes, and how many inputs.
#[derive(Clone, Copy)]
pub struct Sizes {
    pub rows: usize,
    pub nodes: usize,
    pub inputs: usize,
}

// Puts the values of the rows from `start` to `stop` - 1 of a block, which stand from `first` on; `before` of the step's inputs are of rows before `start`. Answers how many are of rows before `stop`.
fn evaluate_rows(
    file: &[u8],
    start: usize,
    stop: usize,
    first: usize,
    inputs: &[u8],
    before: usize,
    work: &mut [u8],
    step: Step,
) -> usize
    requires ready { Ready CheckedRows file.now (length (netlist_of file.now)) × BlockRows (length (netlist_of file.now)) start stop first }
    requires inputs_fit { InputsFit file.now inputs.now step × (before ≡ place_among is_input (netlist_of file.now) start) }
    requires two_halves { TwoHalves (length (netlist_of file.now)) step work.old }
    ensures { (result ≡ place_among is_input (netlist_of file.now) stop) × ((v : List ℕ) → ValuesStand file.now inputs.now step v start work.old → ValuesStand file.now inputs.now step v stop work.new) }
{
    let mut offset = first;
    let mut used = before;
    for row in start..stop {
        let kind = file[offset];
        let value = row_values::row_value(file, row, offset, kind, inputs, used, work, step);
        let more = blockfile::count::one_if(kind == 1);
        work[step.current + row] = value;
        used += more;
        offset += ROW_BYTES;
    }
    used
}

// Puts the values of all rows: those of the whole blocks, then those of the rest.
fn evaluate(file: &[u8], rows: usize, inputs: &[u8], work: &mut [u8], step: Step)
    requires { Ready CheckedRows file.now rows × (InputsFit file.now inputs.now step × TwoHalves rows step work.old) }
    ensures { work.new ≡ sets work.old step.current (bit_bytes (step_from (netlist_of file.now) inputs.now work.old step)) }
{
    let blocks = rows / BLOCK_ROWS;
    let mut used = 0;
    for block in 0..blocks {
        let start = BLOCK_ROWS * block;
        let stop = start + BLOCK_ROWS;
        let first = FIRST_ROW + BLOCK_BYTES * block;
        used = evaluate_rows(file, start, stop, first, inputs, used, work, step);
    }
    let start = BLOCK_ROWS * blocks;
    let first = FIRST_ROW + BLOCK_BYTES * blocks;
    evaluate_rows(file, start, rows, first, inputs, used, work, step);
}

// Each register takes its first value, from byte `rows` on.
fn start(file: &[u8], rows: usize, choices: &[u8], work: &mut [u8])
    requires ready { Ready CheckedRows file.now rows × ValuesRoom rows work.old }
    requires binary { IsBinary choices.now × (count_if is_unknown (netlist_of file.now) ≤ length choices.now) }
    ensures { work.new ≡ sets work.old rows (bit_bytes (map (reset_value bool_logic (reset_choices (netlist_of file.now) choices.now)) (netlist_of file.now))) }
{
    let mut choice = 0;
    for row in 0..rows {
        work[rows + row] = row_values::start_value(file, row, choices, choice);
        choice += row_values::unknown_at(file, row);
    }
}

// Copies `count` bytes, from byte `from` of work to byte `to` of result. By a loop: `copy_from_slice` would have the library for C ask for `memmove` from outside.
fn copy_outputs(work: &[u8], from: usize, count: usize, res: &mut [u8], to: usize)
    requires { (from + count ≤ length work.now) × (to + count ≤ length res.old) }
    ensures { res.new ≡ sets res.old to (take count (drop from work.now)) }
{
    for copied in 0..count {
        res[to + copied] = work[from + copied];
    }
}

// One step: the rows' values, and the outputs' bytes from byte `to` of result on.
fn run_step(
    file: &[u8],
    rows: usize,
    nodes: usize,
    inputs: &[u8],
    res: &mut [u8],
    to: usize,
    work: &mut [u8],
    step: Step,
)
    requires { StepReady file.now rows nodes inputs.now res.old to work.old step }
    ensures { Stepped file.now inputs.now step to work.old work.new res.old res.new }
{
    let outputs = rows - nodes;
    let shown = step.current + nodes;
    evaluate(file, rows, inputs, work, step);
    copy_outputs(work, shown, outputs, res, to);
}

// The step after this one, whose inputs stand from `base` on: the rows' values of the two change places.
fn next_step(step: Step, base: usize) -> Step
    ensures { result ≡ next_step step base }
{
    Step {
        base,
        current: step.previous,
        previous: step.current,
        initial: false,
    }
}

// A run of this many steps over an accepted file of these sizes. What is left in work is open: the last steps' values, which Run clears.
pub fn run_steps(
    file: &[u8],
    sizes: Sizes,
    steps: usize,
    choices: &[u8],
    inputs: &[u8],
    res: &mut [u8],
    work: &mut [u8],
)
    requires { Given file.now sizes.rows sizes.nodes sizes.inputs steps choices.now inputs.now res.old × ValuesRoom sizes.rows work.old }
    ensures { res.new ≡ run_bytes (netlist_of file.now) choices.now inputs.now steps ++ drop (steps * count_if is_output (netlist_of file.now)) res.old }
{
    let Sizes {
        rows,
        nodes,
        inputs: inputs_a_step,
    } = sizes;
    let outputs = rows - nodes;
    start(file, rows, choices, work);
    let mut step = Step {
        base: 0,
        current: 0,
        previous: rows,
        initial: true,
    };
    let mut to = 0;
    for _done in 0..steps {
        run_step(file, rows, nodes, inputs, res, to, work, step);
        step = next_step(step, step.base + inputs_a_step);
        to += outputs;
    }
}
