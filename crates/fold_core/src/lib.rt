// Fold over plain slices: questions 1 to 16, then the stages in turn; the clock entries stay packed in the work memory.
#![tactic(auto)]

ghost use Rattle.fold_answers.specs.FoldOutcome.{CoreFolded};

use fold_answers::FoldNumbers;
use fold_refusals::FoldRefusal;

mod stages;

// The fold, for a clock list of this many entries. The answer's first entries stay packed in the work memory, which is not cleared.
pub fn fold_core(
    file: &[u8],
    wish: u32,
    res: &mut [u8],
    work: &mut [u8],
    clocks: usize,
) -> Result<FoldNumbers, FoldRefusal>
    ensures { CoreFolded file.now wish clocks res.old res.new work.old work.new result }
{
    memory::clear(work);
    let rows = fold_refusals::asking::ask(file, wish, res.len(), work.len(), clocks)?;
    stages::fold_passed(file, rows, wish as usize, res, work)
}
