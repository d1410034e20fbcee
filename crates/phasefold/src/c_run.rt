// Run for callers in C.
ghost use Rattle.phasefold.specs.ForeignAnswers.{RanFlat};

use c_answers::PfRefusal;

pub fn pf_run(
    file: &[u8],
    steps: u32,
    choices: &[u8],
    inputs: &[u8],
    res: &mut [u8],
    work: &mut [u8],
) -> PfRefusal
    ensures { RanFlat file.now steps choices.now inputs.now res.old res.new work.old work.new result }
{
    match run::run(file, steps, choices, inputs, res, work) {
        Ok(()) => c_answers::told(0, 0),
        Err(refusal) => c_answers::refusal_numbers(refusal),
    }
}
