// Fold: the public operation, with the caller's clock list.
#![tactic(auto)]

ghost use Rattle.fold_answers.specs.FoldedOutcome.{Folded};

use clock_list::Clock;
use fold_answers::FoldNumbers;
use fold_refusals::FoldRefusal;

// The fold, its clock entries in the list and its file in the result; work is cleared.
pub fn fold(
    file: &[u8],
    wish: u32,
    res: &mut [u8],
    work: &mut [u8],
    clocks: &mut [Clock],
) -> Result<FoldNumbers, FoldRefusal>
    ensures { Folded file.now wish res.old res.new work.old work.new clocks.old clocks.new result }
{
    let count = clocks.len();
    let answer = fold_core::fold_core(file, wish, res, work, count);
    let used = fold_answers::used_of(answer);
    clock_list::set_clocks(clocks, work, used);
    memory::clear(work);
    answer
}
