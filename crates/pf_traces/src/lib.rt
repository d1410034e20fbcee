// Trace: values of a fold taken back to the original, as a text that Run takes, and what the original's last step shows on them.
#![tactic(auto)]

use c_answers::{PfCounts, PfRefusal, PfTraced};
use fold_refusals::FoldRefusal;
use listing::folds::CLOCK_ENTRIES;
use listing::rows::{fields_of, file_bytes};
use pf_causes::text_causes::Encoding;
use pf_causes::values::{
    Asked, Values, load_values, put_step, put_steps, refuse_memory, refuse_values, run_into,
};
use pf_causes::{number_of, refuse};
use pf_words::calls::Call;
use pf_words::outcome::{
    CallRefusal, Outcome, fail_word, finish, say, say_text, say_where, tell_refusal,
};
use text::bytes::{first, least, rest, same, wide};
use text::out::{Out, one, put, put_filled, three, to};
use text::streams::{OUTPUT, Streams};

const MOST_GROUPS: u32 = 512;

// How long the trace memory is. With line ends and remarks, a trace that it holds is a text of values that is not too long for Run.
const TRACE_BYTES: usize = 1000000;

// What a trace is asked for: the wish, how many groups, the phase in the last of them, and whether the original is run.
#[derive(Clone, Copy)]
struct Wanted {
    wish: u32,
    groups: u32,
    phase: u32,
    runs: bool,
}

// What is taken back: the values of a fold of so many phases, and what is asked of them.
#[derive(Clone, Copy)]
struct Taken {
    phases: u32,
    asked: Asked,
    values: Values,
}

// ---- numbers

// So many at each of these times; both numbers are below 65536.
fn in_all(times: usize, each: usize) -> usize {
    times % 65536 * (each % 65536)
}

// How many values there are: one for each X register, and so many times one for each input.
fn values_in_all(counts: PfCounts, times: usize) -> usize {
    let inputs = in_all(times, counts.inputs as usize);
    inputs.wrapping_add(counts.unknown as usize)
}

// How many of the original's steps there are up to the phase in the last group.
fn steps_of(wanted: Wanted, phases: u32) -> usize {
    let groups = wanted.groups.wrapping_sub(1) as usize;
    let before = in_all(groups, phases as usize);
    before.wrapping_add(wanted.phase as usize).wrapping_add(1)
}

// ---- refusals 26 to 28

// 26; the words are those of the call.
fn say_groups(rt: &impl Streams, wanted: Wanted, groups: &[u8], phase: &[u8], phases: u32) {
    if wanted.groups == 0 || MOST_GROUPS < wanted.groups {
        say_text(rt, groups);
        say_text(rt, b" groups, and a trace has 1 to 512");
    } else {
        say_text(rt, b"the phase ");
        say_text(rt, phase);
        say(
            rt,
            b" is not below #, the number of phases of the fold",
            one(phases as usize),
        );
    }
}

// 28
fn say_room(rt: &impl Streams, file: &[u8], wanted: Wanted, phases: u32) {
    let counts = phasefold::c_count::pf_count(file);
    let steps = steps_of(wanted, phases);
    let size = values_in_all(counts, steps);
    let unknown = counts.unknown as usize;
    let inputs = counts.inputs as usize;
    say(
        rt,
        b"the trace has # values, # for X registers and # for inputs at each of # steps, and pf has room for 1000000",
        [size, unknown, inputs, steps, 0, 0],
    );
}

// 27
fn refuse_fold_values(
    rt: &impl Streams,
    refusal: PfRefusal,
    source: &[u8],
    taken: Taken,
) -> CallRefusal {
    let asked = taken.asked;
    let values = taken.values;
    let right = values_in_all(asked.counts, asked.steps as usize);
    refuse_values(
        rt,
        refusal,
        source,
        values.count != right,
        b"there are # values, and should be # for X registers of the fold and # for inputs of the fold at each of # groups",
        asked,
        values,
    )
}

// 26 and 28
fn refuse_groups(
    rt: &impl Streams,
    refusal: PfRefusal,
    path: &[u8],
    file: &[u8],
    groups: &[u8],
    phase: &[u8],
    wanted: Wanted,
    phases: u32,
) -> CallRefusal {
    let refused = tell_refusal(rt, refusal);
    say_where(rt, path, 0);
    if refusal.number == 26 {
        say_groups(rt, wanted, groups, phase, phases);
    } else {
        say_room(rt, file, wanted, phases);
    }
    say_text(rt, b"\n");
    refused
}

// ---- the trace as a text of values

// How many steps there are, and what the last one is in the fold.
fn put_steps_remark(
    rt: &impl Streams,
    buffer: &mut [u8],
    out: Out,
    wanted: Wanted,
    steps: u32,
) -> Out {
    let last = steps.wrapping_sub(1) as usize;
    let group = wanted.groups.wrapping_sub(1) as usize;
    let named = put(rt, buffer, out, b"# steps of the original: ");
    let counted = put_filled(rt, buffer, named, b"#\n", one(steps as usize));
    let begun = put(rt, buffer, counted, b"# the last one is step ");
    put_filled(
        rt,
        buffer,
        begun,
        b"#, which is phase # of group # of the fold; all three are counted from 0\n",
        three(last, wanted.phase as usize, group),
    )
}

// What the lines are for.
fn put_lines_remark(rt: &impl Streams, buffer: &mut [u8], out: Out, counts: PfCounts) -> Out {
    if counts.unknown == 0 {
        if counts.inputs == 0 {
            put(
                rt,
                buffer,
                out,
                b"# no X registers and no inputs, so no values\n",
            )
        } else {
            put(
                rt,
                buffer,
                out,
                b"# a line for each step: its inputs, in row order\n",
            )
        }
    } else if counts.inputs == 0 {
        put(
            rt,
            buffer,
            out,
            b"# a line for the X registers, in row order; there are no inputs\n",
        )
    } else {
        put(
            rt,
            buffer,
            out,
            b"# a line for the X registers, then a line for each step: its inputs; all in row order\n",
        )
    }
}

// The line of the X registers, if there are any.
fn put_choices(rt: &impl Streams, buffer: &mut [u8], out: Out, choices: &[u8]) -> Out {
    if choices.is_empty() {
        out
    } else {
        put_step(rt, buffer, out, choices)
    }
}

// The lines of the steps, if there are inputs.
fn put_inputs(
    rt: &impl Streams,
    buffer: &mut [u8],
    out: Out,
    values: &[u8],
    steps: u32,
    inputs: usize,
) -> Out {
    if inputs == 0 {
        out
    } else {
        put_steps(rt, buffer, out, values, steps, inputs)
    }
}

// The values, in lines.
fn put_values(rt: &impl Streams, buffer: &mut [u8], out: Out, asked: Asked, left: &[u8]) -> Out {
    let counts = asked.counts;
    let unknown = counts.unknown as usize;
    let inputs = counts.inputs as usize;
    let chosen = put_choices(rt, buffer, out, first(left, unknown));
    put_inputs(rt, buffer, chosen, rest(left, unknown), asked.steps, inputs)
}

// The remark of an output.
fn put_output(
    rt: &impl Streams,
    buffer: &mut [u8],
    out: Out,
    step: usize,
    label: usize,
    value: u8,
) -> Out {
    let begun = put(rt, buffer, out, b"# step ");
    let numbers = three(step, label, wide(value));
    put_filled(rt, buffer, begun, b"#: output # shows #\n", numbers)
}

// A remark for each output, in row order, with what it shows at the step; none if nothing is shown. Outputs follow the nodes.
fn put_outputs(
    rt: &impl Streams,
    buffer: &mut [u8],
    out: Out,
    file: &[u8],
    nodes: usize,
    step: usize,
    shown: &[u8],
) -> Out {
    let mut now = out;
    for (i, value) in shown.iter().enumerate() {
        let fields = fields_of(file, nodes.wrapping_add(i));
        now = put_output(rt, buffer, now, step, fields.b, *value);
    }
    now
}

// The text; `shown` are the outputs of the last step, or none.
fn tell_trace(
    rt: &impl Streams,
    file: &[u8],
    wanted: Wanted,
    asked: Asked,
    left: &[u8],
    shown: &[u8],
) -> Outcome {
    let mut room = text::rooms::large_buffer();
    let counts = asked.counts;
    let last = asked.steps.wrapping_sub(1) as usize;
    let counted = put_steps_remark(rt, &mut room, to(OUTPUT), wanted, asked.steps);
    let begun = put_lines_remark(rt, &mut room, counted, counts);
    let valued = put_values(rt, &mut room, begun, asked, left);
    let out = put_outputs(
        rt,
        &mut room,
        valued,
        file,
        counts.nodes as usize,
        last,
        shown,
    );
    finish(rt, &room, out)
}

// The text, with what the run shows at the last step. Run takes every trace, and can refuse it for its memory alone.
fn tell_run(
    rt: &impl Streams,
    path: &[u8],
    file: &[u8],
    wanted: Wanted,
    asked: Asked,
    left: &[u8],
) -> Outcome {
    let mut room = text::files::long_room();
    let result: &mut [u8] = &mut room;
    if let Err(refusal) = run_into(file, asked, left, result) {
        return Err(refuse_memory(rt, refusal, path, asked));
    }
    let counts = asked.counts;
    let outputs = counts.outputs as usize;
    let last = asked.steps.wrapping_sub(1) as usize;
    let shown = first(rest(result, in_all(last, outputs)), outputs);
    tell_trace(rt, file, wanted, asked, left, shown)
}

// The trace of so many steps, at the start of the trace memory, is told.
fn tell_wanted(
    rt: &impl Streams,
    path: &[u8],
    file: &[u8],
    wanted: Wanted,
    steps: u32,
    left: &[u8],
) -> Outcome {
    let counts = phasefold::c_count::pf_count(file);
    let asked = Asked {
        steps,
        counts,
        encoding: Encoding::Plain,
    };
    let trace = first(left, values_in_all(counts, steps as usize));
    if wanted.runs {
        tell_run(rt, path, file, wanted, asked, trace)
    } else {
        tell_trace(rt, file, wanted, asked, trace, b"")
    }
}

// ---- the command

// The phases and the counts of a fold.
#[derive(Clone, Copy)]
struct Folded {
    phases: u32,
    counts: PfCounts,
}

// The fold by this wish.
fn fold_of(file: &[u8], wish: u32) -> Result<Folded, FoldRefusal> {
    let mut result = text::rooms::large_buffer();
    let mut work = listing::folds::work_room();
    let numbers = fold_core::fold_core(file, wish, &mut result, &mut work, CLOCK_ENTRIES)?;
    Ok(Folded {
        phases: numbers.phases,
        counts: phasefold::c_count::pf_count(first(&result, file_bytes(numbers.after))),
    })
}

// The trace at the start of the memory `left`.
fn trace_lent(
    file: &[u8],
    wanted: Wanted,
    choices: &[u8],
    inputs: &[u8],
    res: &mut [u8],
    work: &mut [u8],
    left: &mut [u8],
) -> PfTraced {
    let end = least(TRACE_BYTES, left.len());
    phasefold::c_trace::pf_trace(
        file,
        wanted.wish,
        wanted.groups,
        wanted.phase,
        choices,
        inputs,
        res,
        work,
        &mut left[..end],
    )
}

// The same; the first values are for the X registers.
fn trace_into(
    file: &[u8],
    wanted: Wanted,
    unknown: usize,
    bytes: &[u8],
    left: &mut [u8],
) -> PfTraced {
    let mut result = text::rooms::large_buffer();
    let mut work = listing::folds::work_room();
    let choices = first(bytes, unknown);
    let inputs = rest(bytes, unknown);
    trace_lent(file, wanted, choices, inputs, &mut result, &mut work, left)
}

// The values of the fold taken back, or the refusal.
fn trace_taken(
    rt: &impl Streams,
    path: &[u8],
    file: &[u8],
    wish: &[u8],
    groups: &[u8],
    phase: &[u8],
    source: &[u8],
    wanted: Wanted,
    bytes: &[u8],
    taken: Taken,
) -> Outcome {
    let mut room = text::files::long_room();
    let left: &mut [u8] = &mut room;
    let asked = taken.asked;
    let counts = asked.counts;
    let traced = trace_into(file, wanted, counts.unknown as usize, bytes, left);
    let refusal = PfRefusal {
        number: traced.number,
        place: traced.place,
    };
    Err(match refusal.number {
        0 => return tell_wanted(rt, path, file, wanted, traced.steps, left),
        26 | 28 => refuse_groups(rt, refusal, path, file, groups, phase, wanted, taken.phases),
        27 => refuse_fold_values(rt, refusal, source, taken),
        _ => refuse(rt, path, 0, file, refusal, wish),
    })
}

// The fold tells how many values there should be.
fn trace_values(
    rt: &impl Streams,
    path: &[u8],
    file: &[u8],
    wish: &[u8],
    groups: &[u8],
    phase: &[u8],
    source: &[u8],
    wanted: Wanted,
    bytes: &[u8],
    values: Values,
    encoding: Encoding,
) -> Outcome {
    let Folded { phases, counts } = match fold_of(file, wanted.wish) {
        Ok(folded) => folded,
        Err(refusal) => {
            let refusal = c_answers::refusal_numbers(refusal);
            return Err(refuse(rt, path, 0, file, refusal, wish));
        }
    };
    let asked = Asked {
        steps: wanted.groups,
        counts,
        encoding,
    };
    let taken = Taken {
        phases,
        asked,
        values,
    };
    trace_taken(
        rt, path, file, wish, groups, phase, source, wanted, bytes, taken,
    )
}

// The values are read.
fn trace_from(
    rt: &Call,
    path: &[u8],
    file: &[u8],
    wish: &[u8],
    groups: &[u8],
    phase: &[u8],
    source: &[u8],
    wanted: Wanted,
) -> Outcome {
    let mut room = text::files::long_room();
    let (values, encoding) = load_values(rt, source, &mut room)?;
    trace_values(
        rt,
        path,
        file,
        wish,
        groups,
        phase,
        source,
        wanted,
        first(&room, values.count),
        values,
        encoding,
    )
}

// The file, the wish, the groups, the phase and the values; the last word is --run, and may be left out.
pub fn trace(
    rt: &Call,
    count: usize,
    path: &[u8],
    file: &[u8],
    wish: &[u8],
    groups: &[u8],
    phase: &[u8],
    source: &[u8],
    last: &[u8],
) -> Outcome {
    let runs = 5 < count;
    if runs && !same(last, b"--run") {
        return Err(fail_word(rt, b"the last word ", last, b" is not --run\n"));
    }
    let wanted = Wanted {
        wish: number_of(rt, b"the wish ", wish, b" is not a number\n")?,
        groups: number_of(rt, b"the groups ", groups, b" are not a number\n")?,
        phase: number_of(rt, b"the phase ", phase, b" is not a number\n")?,
        runs,
    };
    trace_from(rt, path, file, wish, groups, phase, source, wanted)
}
