// Trace: values of a folded netlist taken back to the original. Fold's questions, then 26 to 28; the fold is made in the lent result, which is cleared as work is.
#![tactic(auto)]

ghost use Rattle.std.specs.Prelude.{◌≡◌, true, ◌&&◌, ◌≤◌, length, eqb};
ghost use Rattle.netlist.specs.Limits.{most_phases, fold_work_bytes};
ghost use Rattle.netlist.specs.FileFormat.{netlist_of};
ghost use Rattle.questions.specs.Questions.{all_binary};
ghost use Rattle.traces.specs.Trace.{trace_steps};
ghost use Rattle.traces.specs.TraceQuestions.{groups_right};
ghost use Rattle.trace_values.specs.Pairs.{FoldedPair};
ghost use Rattle.trace_answers.specs.Traced.{TraceDone, Traced};
ghost use Rattle.trace.specs.TracePlans.{TracePlanned, TraceMade};

use blockfile::file_bytes;
use fold_answers::FoldNumbers;
use netlist::{FOLD_CLOCK_ENTRIES, MOST_GROUPS};
use trace_answers::TraceRefusal;

// The folded netlist's inputs, the original's X registers and its steps, of a trace that is to be made.
#[derive(Clone, Copy)]
struct TracePlan {
    kept: usize,
    unknown: usize,
    steps: u32,
}

// 26.
fn groups_right(groups: u32, phase: u32, phases: u32) -> bool
    ensures { result ≡ groups_right phases groups phase }
{
    1 <= groups && groups <= MOST_GROUPS && phase < phases
}

// 27: the folded netlist has `unknown` X registers, and `values` bytes are asked for its inputs.
fn values_right(choices: &[u8], unknown: usize, inputs: &[u8], values: usize) -> bool
    ensures { result ≡ (eqb (length choices.now) unknown && eqb (length inputs.now) values) && all_binary choices.now && all_binary inputs.now }
{
    let lengths = choices.len() == unknown && inputs.len() == values;
    lengths && run::all_binary(choices) && run::all_binary(inputs)
}

// How many of the original's steps there are up to phase `phase` of the last group.
fn steps_of(groups: u32, phase: u32, phases: u32) -> u32
    requires { (groups_right phases groups phase ≡ true) × (phases ≤ most_phases) }
    ensures { result ≡ trace_steps phases groups phase }
{
    (groups - 1) * phases + phase + 1
}

// 26 to 28, of a file and its fold; `room` bytes are lent for the trace.
fn plan_trace(
    file: &[u8],
    numbers: FoldNumbers,
    folded: &[u8],
    groups: u32,
    phase: u32,
    choices: &[u8],
    inputs: &[u8],
    room: usize,
) -> Result<TracePlan, TraceRefusal>
    requires { FoldedPair file.now folded.now numbers.before numbers.after numbers.phases }
    ensures { TracePlanned (netlist_of file.now) numbers.phases (netlist_of folded.now) groups phase choices.now inputs.now room result }
{
    if !groups_right(groups, phase, numbers.phases) {
        return Err(TraceRefusal::Groups);
    }
    let kept_rows = numbers.after as usize;
    let kept_unknown = trace_columns::count_rows(folded, kept_rows, true);
    let kept = trace_columns::count_rows(folded, kept_rows, false);
    let values = groups as usize * kept;
    if !values_right(choices, kept_unknown, inputs, values) {
        return Err(TraceRefusal::Values);
    }
    let rows = numbers.before as usize;
    let unknown = trace_columns::count_rows(file, rows, true);
    let each = trace_columns::count_rows(file, rows, false);
    let steps = steps_of(groups, phase, numbers.phases);
    let size = unknown + steps as usize * each;
    if room < size {
        return Err(TraceRefusal::Room);
    }
    Ok(TracePlan {
        kept,
        unknown,
        steps,
    })
}

// 26 to 28, and the trace if they are passed.
fn trace_fold(
    file: &[u8],
    numbers: FoldNumbers,
    folded: &[u8],
    groups: u32,
    phase: u32,
    choices: &[u8],
    inputs: &[u8],
    work: &mut [u8],
    trace: &mut [u8],
) -> Result<u32, TraceRefusal>
    requires { FoldedPair file.now folded.now numbers.before numbers.after numbers.phases × (fold_work_bytes ≤ length work.old) }
    ensures { TraceMade (netlist_of file.now) numbers.phases (netlist_of folded.now) groups phase choices.now inputs.now trace.old trace.new result }
{
    let room = trace.len();
    let plan = plan_trace(file, numbers, folded, groups, phase, choices, inputs, room)?;
    trace_values::put_trace(
        file,
        numbers.before as usize,
        folded,
        numbers.after as usize,
        numbers.phases as usize,
        plan.kept,
        plan.steps as usize,
        choices,
        inputs,
        work,
        trace,
        plan.unknown,
    );
    Ok(plan.steps)
}

// Fold's questions, then 26 to 28; the trace if all are passed. What is left in result and work is open: Trace clears both.
fn trace_lent(
    file: &[u8],
    wish: u32,
    groups: u32,
    phase: u32,
    choices: &[u8],
    inputs: &[u8],
    res: &mut [u8],
    work: &mut [u8],
    trace: &mut [u8],
) -> Result<u32, TraceRefusal>
    ensures { TraceDone file.now wish groups phase choices.now inputs.now (length res.old) (length work.old) trace.old trace.new result }
{
    match fold_core::fold_core(file, wish, &mut *res, &mut *work, FOLD_CLOCK_ENTRIES) {
        Err(refusal) => Err(TraceRefusal::from(refusal)),
        Ok(numbers) => {
            let size = file_bytes(numbers.after);
            trace_fold(
                file,
                numbers,
                &res[0..size],
                groups,
                phase,
                choices,
                inputs,
                work,
                trace,
            )
        }
    }
}

// The trace in the memory lent for it; a refusal leaves that as it was. Result and work are cleared on every return.
pub fn trace(
    file: &[u8],
    wish: u32,
    groups: u32,
    phase: u32,
    choices: &[u8],
    inputs: &[u8],
    res: &mut [u8],
    work: &mut [u8],
    trace: &mut [u8],
) -> Result<u32, TraceRefusal>
    ensures { Traced file.now wish groups phase choices.now inputs.now res.old res.new work.old work.new trace.old trace.new result }
{
    let traced = trace_lent(
        file, wish, groups, phase, choices, inputs, &mut *res, &mut *work, trace,
    );
    memory::clear(res);
    memory::clear(work);
    traced
}
