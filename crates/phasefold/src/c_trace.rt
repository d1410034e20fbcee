// Trace for callers in C.
ghost use Rattle.phasefold.specs.ForeignAnswers.{TracedFlat};

use c_answers::PfTraced;

pub fn pf_trace(
    file: &[u8],
    wish: u32,
    groups: u32,
    phase: u32,
    choices: &[u8],
    inputs: &[u8],
    res: &mut [u8],
    work: &mut [u8],
    trace: &mut [u8],
) -> PfTraced
    ensures { TracedFlat file.now wish groups phase choices.now inputs.now res.old res.new work.old work.new trace.old trace.new result }
{
    let answer = trace::trace(file, wish, groups, phase, choices, inputs, res, work, trace);
    c_answers::traced_numbers(answer)
}
