// Sort for callers in C.
ghost use Rattle.phasefold.specs.ForeignAnswers.{SortedFlat};

use c_answers::PfWritten;

pub fn pf_sort(file: &[u8], res: &mut [u8], work: &mut [u8]) -> PfWritten
    ensures { SortedFlat file.now res.old res.new work.old work.new result }
{
    match sort::sort(file, res, work) {
        Ok(rows) => c_answers::written(rows),
        Err(refusal) => c_answers::unwritten(refusal),
    }
}
