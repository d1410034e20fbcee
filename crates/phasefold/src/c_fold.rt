// Fold for callers in C.
ghost use Rattle.phasefold.specs.ForeignAnswers.{FoldedFlat};

use c_answers::PfFolded;
use clock_list::Clock;

pub fn pf_fold(
    file: &[u8],
    wish: u32,
    res: &mut [u8],
    work: &mut [u8],
    clocks: &mut [Clock],
) -> PfFolded
    ensures { FoldedFlat file.now wish res.old res.new work.old work.new clocks.old clocks.new result }
{
    let answer = fold::fold(file, wish, res, work, clocks);
    c_answers::folded_numbers(answer)
}
