// Check for callers in C.
ghost use Rattle.std.specs.Prelude.{◌≡◌};
ghost use Rattle.questions.specs.Questions.{file_refusal};
ghost use Rattle.c_answers.specs.AnswerNumbers.{refusal_numbers};

use c_answers::PfRefusal;

pub fn pf_check(file: &[u8]) -> PfRefusal
    ensures { result ≡ refusal_numbers (file_refusal file.now) }
{
    match accept::accept(file) {
        Ok(_) => c_answers::told(0, 0),
        Err(refusal) => c_answers::refusal_numbers(refusal),
    }
}
