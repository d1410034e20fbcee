// Count for callers in C.
ghost use Rattle.std.specs.Prelude.{◌≡◌};
ghost use Rattle.phasefold.specs.ForeignAnswers.{count_numbers};

use c_answers::PfCounts;

pub fn pf_count(file: &[u8]) -> PfCounts
    ensures { result ≡ count_numbers file.now }
{
    match count::count(file) {
        Ok(counts) => c_answers::counts_numbers(counts),
        Err(refusal) => c_answers::refused_counts(refusal),
    }
}
