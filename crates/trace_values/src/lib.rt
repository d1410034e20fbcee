// The original's choices and inputs, from the values that the folded netlist is given.
#![tactic(auto)]

ghost use Rattle.std.specs.Prelude.{◌≡◌, true, List, ℕ, ◌+◌, ◌*◌, ◌≤◌, length};
ghost use Rattle.std.proofs.lemmas.List.Edits.{sets};
ghost use Rattle.memory.specs.Lists.{count_if};
ghost use Rattle.netlist.specs.Limits.{fold_work_bytes};
ghost use Rattle.netlist.specs.Rows.{is_unknown};
ghost use Rattle.netlist.specs.FileFormat.{netlist_of};
ghost use Rattle.netlist.specs.RunLayout.{values_from_bytes, choice_bytes, input_bytes};
ghost use Rattle.traces.specs.TraceAnswer.{trace_after};
ghost use Rattle.traces.specs.Trace.{traced_values, trace_bytes};
ghost use Rattle.trace_values.specs.Pairs.{FoldedPair, phases_of, Mapped, ChoicesGiven, InputsGiven, TraceGiven};

use trace_columns::LABEL_BYTES;

// How many phases the columns have: of X registers one.
fn phases_of(unknown: bool, phases: usize) -> usize
    ensures { result ≡ phases_of unknown phases }
{
    if unknown { 1 } else { phases }
}

// The columns of the X registers, or of the inputs, in work; answers how many the original has.
fn map_columns(
    file: &[u8],
    rows: usize,
    folded: &[u8],
    kept: usize,
    phases: usize,
    unknown: bool,
    labels: &mut [u8],
    work: &mut [u8],
) -> usize
    requires folded_pair { FoldedPair file.now folded.now rows kept phases }
    requires in_bounds { (2016 ≤ length labels.old) × (fold_work_bytes ≤ length work.old) }
    ensures { Mapped file.now folded.now rows kept phases unknown labels.new work.new result }
{
    let count = trace_columns::list_labels(file, rows, unknown, &mut *labels);
    memory::clear(&mut *work);
    let used = phases_of(unknown, phases);
    trace_columns::map_rows(folded, kept, unknown, used, labels, count, work);
    count
}

// The original's choices, from byte 0 on. What is left in work is open: Trace clears it.
fn put_choices(
    file: &[u8],
    rows: usize,
    folded: &[u8],
    kept_rows: usize,
    phases: usize,
    choices: &[u8],
    work: &mut [u8],
    trace: &mut [u8],
)
    requires folded_pair { FoldedPair file.now folded.now rows kept_rows phases × (fold_work_bytes ≤ length work.old) }
    requires choices_given { ChoicesGiven (netlist_of file.now) (netlist_of folded.now) choices.now trace.old }
    ensures { (inputs : List ℕ) → trace.new ≡ sets trace.old 0 (choice_bytes (netlist_of file.now) (traced_values phases (netlist_of folded.now) (values_from_bytes (netlist_of folded.now) choices.now inputs))) }
{
    let mut labels = [0u8; LABEL_BYTES];
    let count = map_columns(
        file,
        rows,
        folded,
        kept_rows,
        phases,
        true,
        &mut labels,
        &mut *work,
    );
    trace_columns::put_values(work, 0, count, choices, 0, trace, 0);
}

// The original's inputs over all steps, from byte `to` on; a group has `kept` values.
fn put_inputs(
    file: &[u8],
    rows: usize,
    folded: &[u8],
    kept_rows: usize,
    phases: usize,
    kept: usize,
    steps: usize,
    inputs: &[u8],
    work: &mut [u8],
    trace: &mut [u8],
    to: usize,
)
    requires folded_pair { FoldedPair file.now folded.now rows kept_rows phases × (fold_work_bytes ≤ length work.old) }
    requires inputs_given { InputsGiven (netlist_of file.now) (netlist_of folded.now) phases kept steps inputs.now trace.old to }
    ensures { (choices : List ℕ) → trace.new ≡ sets trace.old to (input_bytes (netlist_of file.now) (traced_values phases (netlist_of folded.now) (values_from_bytes (netlist_of folded.now) choices inputs.now)) steps) }
{
    let mut labels = [0u8; LABEL_BYTES];
    let count = map_columns(
        file,
        rows,
        folded,
        kept_rows,
        phases,
        false,
        &mut labels,
        &mut *work,
    );
    trace_columns::put_steps(work, count, phases, kept, steps, inputs, trace, to);
}

// The whole trace, from byte 0 on; later bytes stay.
pub fn put_trace(
    file: &[u8],
    rows: usize,
    folded: &[u8],
    others: usize,
    phases: usize,
    kept: usize,
    steps: usize,
    choices: &[u8],
    inputs: &[u8],
    work: &mut [u8],
    trace: &mut [u8],
    to: usize,
)
    requires folded_pair { FoldedPair file.now folded.now rows others phases × (fold_work_bytes ≤ length work.old) }
    requires trace_given { TraceGiven (netlist_of file.now) (netlist_of folded.now) phases kept steps choices.now inputs.now trace.old to }
    ensures { trace.new ≡ trace_after (trace_bytes (netlist_of file.now) phases (netlist_of folded.now) steps choices.now inputs.now) trace.old }
{
    put_choices(
        file,
        rows,
        folded,
        others,
        phases,
        choices,
        &mut *work,
        &mut *trace,
    );
    put_inputs(
        file, rows, folded, others, phases, kept, steps, inputs, work, trace, to,
    );
}
