// The exports for callers in C: a static library over `phasefold`, a function for each operation and one for the interface's number. A slice is a pointer and a length.
#![tactic(auto)]

ghost use Rattle.std.specs.Prelude.{◌≡◌};
ghost use Rattle.questions.specs.Questions.{file_refusal};
ghost use Rattle.c_answers.specs.AnswerNumbers.{interface_number, refusal_numbers};
ghost use Rattle.phasefold.specs.ForeignAnswers.{FoldedFlat, ImportedFlat, RanFlat, ShownFlat, SortedFlat, TracedFlat, count_numbers};

use c_answers::{PfCounts, PfFolded, PfRefusal, PfShown, PfTraced, PfWritten};
use clock_list::Clock;

// Check.
#[unsafe(no_mangle)]
pub extern "C" fn pf_check(file: &[u8]) -> PfRefusal
    ensures { result ≡ refusal_numbers (file_refusal file.now) }
{
    phasefold::c_check::pf_check(file)
}

// Count.
#[unsafe(no_mangle)]
pub extern "C" fn pf_count(file: &[u8]) -> PfCounts
    ensures { result ≡ count_numbers file.now }
{
    phasefold::c_count::pf_count(file)
}

// Show.
#[unsafe(no_mangle)]
pub extern "C" fn pf_show(file: &[u8], block: u32) -> PfShown
    ensures { ShownFlat file.now block result }
{
    phasefold::c_show::pf_show(file, block)
}

// Sort.
#[unsafe(no_mangle)]
pub extern "C" fn pf_sort(file: &[u8], res: &mut [u8], work: &mut [u8]) -> PfWritten
    ensures { SortedFlat file.now res.old res.new work.old work.new result }
{
    phasefold::c_sort::pf_sort(file, res, work)
}

// Import.
#[unsafe(no_mangle)]
pub extern "C" fn pf_import(text: &[u8], res: &mut [u8], work: &mut [u8]) -> PfWritten
    ensures { ImportedFlat text.now res.old res.new work.old work.new result }
{
    phasefold::c_import::pf_import(text, res, work)
}

// Run.
#[unsafe(no_mangle)]
pub extern "C" fn pf_run(
    file: &[u8],
    steps: u32,
    choices: &[u8],
    inputs: &[u8],
    res: &mut [u8],
    work: &mut [u8],
) -> PfRefusal
    ensures { RanFlat file.now steps choices.now inputs.now res.old res.new work.old work.new result }
{
    phasefold::c_run::pf_run(file, steps, choices, inputs, res, work)
}

// Fold.
#[unsafe(no_mangle)]
pub extern "C" fn pf_fold(
    file: &[u8],
    wish: u32,
    res: &mut [u8],
    work: &mut [u8],
    clocks: &mut [Clock],
) -> PfFolded
    ensures { FoldedFlat file.now wish res.old res.new work.old work.new clocks.old clocks.new result }
{
    phasefold::c_fold::pf_fold(file, wish, res, work, clocks)
}

// Trace.
#[unsafe(no_mangle)]
pub extern "C" fn pf_trace(
    file: &[u8],
    wish: u32,
    groups: u32,
    phase: u32,
    choices: &[u8],
    inputs: &[u8],
    res: &mut [u8],
    work: &mut [u8],
    trace: &mut [u8],
) -> PfTraced
    ensures { TracedFlat file.now wish groups phase choices.now inputs.now res.old res.new work.old work.new trace.old trace.new result }
{
    phasefold::c_trace::pf_trace(file, wish, groups, phase, choices, inputs, res, work, trace)
}

// The interface's number.
#[unsafe(no_mangle)]
pub extern "C" fn pf_version() -> u32
    ensures { result ≡ interface_number }
{
    phasefold::c_version::pf_version()
}
