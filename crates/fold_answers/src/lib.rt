// What Fold answers, and what it promises (specs/FoldedOutcome.antt; over plain slices, specs/FoldOutcome.antt).
#![tactic(auto)]

ghost use Rattle.std.specs.Prelude.{◌≡◌};
ghost use Rattle.fold_answers.specs.FoldAnswers.{used_in};

use fold_refusals::FoldRefusal;

// Stem, cycle, phase count, used generators, and the row counts before and after.
#[derive(Clone, Copy, Debug, PartialEq, Eq)]
pub struct FoldNumbers {
    pub stem: u32,
    pub cycle: u32,
    pub phases: u32,
    pub used: u32,
    pub before: u32,
    pub after: u32,
}

// How many clock entries an answer sets.
pub fn used_of(answer: Result<FoldNumbers, FoldRefusal>) -> usize
    ensures { result ≡ used_in answer }
{
    match answer {
        Ok(numbers) => numbers.used as usize,
        Err(_) => 0,
    }
}
