// Run: questions 1 to 10 and 17 to 20, then the steps, in the lent memory.
#![tactic(auto)]

ghost use Rattle.std.specs.Prelude.{◌≡◌, ◌&&◌, List, ◌≤◌, length, replicate};
ghost use Rattle.netlist.specs.Limits.{most_rows, most_steps};
ghost use Rattle.netlist.specs.Rows.{Row};
ghost use Rattle.netlist.specs.FileFormat.{netlist_of};
ghost use Rattle.questions.specs.Questions.{counts_of, value_lists_right, all_binary, run_memory_right};
ghost use Rattle.blockfile.specs.CountCode.{counts_in, EachAtMost};
ghost use Rattle.simulate.specs.Steps.{ValuesRoom, Given};
ghost use Rattle.run_answers.specs.Ran.{ran_bytes, Ran};
ghost use Rattle.run.specs.RunPlans.{StepsPlanned, RunPlanned};

use accept::Accepted;
use blockfile::count::Counts;
use netlist::MOST_STEPS;
use run_answers::RunRefusal;
use simulate::Sizes;

// 19, of one list.
pub fn all_binary(values: &[u8]) -> bool
    ensures { result ≡ all_binary values.now }
{
    let mut binary = true;
    for &value in values {
        binary &= value <= 1;
    }
    binary
}

// 19.
fn values_right(choices: &[u8], inputs: &[u8]) -> bool
    ensures { result ≡ all_binary choices.now && all_binary inputs.now }
{
    all_binary(choices) && all_binary(inputs)
}

// 18.
fn lists_right(counts: Counts, steps: usize, choices: &[u8], inputs: &[u8]) -> bool
    requires { EachAtMost (counts_in counts) most_rows × (steps ≤ most_steps) }
    ensures { (rows : List Row) → counts_in counts ≡ counts_of rows → result ≡ value_lists_right rows steps choices.now inputs.now }
{
    let values = steps * counts.inputs;
    choices.len() == counts.unknown && inputs.len() == values
}

// 20.
fn memory_right(counts: Counts, steps: usize, res: usize, work: usize) -> bool
    requires { EachAtMost (counts_in counts) most_rows × (steps ≤ most_steps) }
    ensures { (rows : List Row) → counts_in counts ≡ counts_of rows → result ≡ run_memory_right rows steps res work }
{
    let bytes = steps * counts.outputs;
    let least = netlist::row_work(counts.nodes + counts.outputs);
    let fits = bytes <= res;
    fits && least <= work
}

// 17 to 20, of an accepted file of this many rows and these counts.
fn plan_steps(
    rows: usize,
    counts: Counts,
    steps: usize,
    choices: &[u8],
    inputs: &[u8],
    res: usize,
    work: usize,
) -> Result<Sizes, RunRefusal>
    requires { EachAtMost (counts_in counts) most_rows }
    ensures { StepsPlanned rows (counts_in counts) steps choices.now inputs.now res work result }
{
    if MOST_STEPS < steps {
        return Err(RunRefusal::Steps);
    }
    if !lists_right(counts, steps, choices, inputs) {
        return Err(RunRefusal::Lists);
    }
    if !values_right(choices, inputs) {
        return Err(RunRefusal::Value);
    }
    if !memory_right(counts, steps, res, work) {
        return Err(RunRefusal::Memory);
    }
    Ok(Sizes {
        rows,
        nodes: counts.nodes,
        inputs: counts.inputs,
    })
}

// All of Run's questions.
fn plan_run(
    file: &[u8],
    steps: usize,
    choices: &[u8],
    inputs: &[u8],
    res: usize,
    work: usize,
) -> Result<Sizes, RunRefusal>
    ensures { RunPlanned file.now steps choices.now inputs.now res work result }
{
    let Accepted { rows, counts } = accept::accept(file)?;
    plan_steps(rows, counts, steps, choices, inputs, res, work)
}

// The steps, in cleared memory, which is cleared again.
fn run_cleared(
    file: &[u8],
    sizes: Sizes,
    steps: usize,
    choices: &[u8],
    inputs: &[u8],
    res: &mut [u8],
    work: &mut [u8],
)
    requires { Given file.now sizes.rows sizes.nodes sizes.inputs steps choices.now inputs.now res.old × ValuesRoom sizes.rows work.old }
    ensures { (res.new ≡ ran_bytes (netlist_of file.now) steps choices.now inputs.now res.old) × (work.new ≡ replicate (length work.old) 0) }
{
    simulate::run_steps(file, sizes, steps, choices, inputs, res, &mut *work);
    memory::clear(work);
}

// A run of this many steps: the outputs' bytes in `result`. Work is cleared on every return.
pub fn run(
    file: &[u8],
    steps: u32,
    choices: &[u8],
    inputs: &[u8],
    res: &mut [u8],
    work: &mut [u8],
) -> Result<(), RunRefusal>
    ensures { Ran file.now steps choices.now inputs.now res.old res.new work.old work.new result }
{
    let count = steps as usize;
    let room = work.len();
    let plan = plan_run(file, count, choices, inputs, res.len(), room);
    memory::clear(&mut *work);
    run_cleared(file, plan?, count, choices, inputs, res, work);
    Ok(())
}
