// Import for callers in C.
ghost use Rattle.phasefold.specs.ForeignAnswers.{ImportedFlat};

use c_answers::PfWritten;

pub fn pf_import(text: &[u8], res: &mut [u8], work: &mut [u8]) -> PfWritten
    ensures { ImportedFlat text.now res.old res.new work.old work.new result }
{
    match import::import(text, res, work) {
        Ok(rows) => c_answers::written(rows),
        Err(refusal) => c_answers::unwritten(refusal),
    }
}
