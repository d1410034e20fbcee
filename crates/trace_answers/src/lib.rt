// What Trace is refused for, and what it promises (specs/Traced.antt).
#![tactic(auto)]

ghost use Rattle.std.specs.Prelude.{◌≡◌};
ghost use Rattle.trace_answers.specs.declared.TraceRefusal.TheVariants.{Fold};

use fold_refusals::FoldRefusal;
use questions::Numbered;

// What a trace is refused for: what Fold refuses, 26, 27 and 28.
#[derive(Clone, Copy, Debug, PartialEq, Eq)]
pub enum TraceRefusal {
    Fold(FoldRefusal),
    Groups,
    Values,
    Room,
}

impl Numbered for TraceRefusal {
    ghost use Rattle.trace_answers.specs.TraceAnswers.{trace_refusal_in};

    ghost refusal = { trace_refusal_in };

    fn number(self) -> u32 {
        match self {
            TraceRefusal::Fold(fold) => fold.number(),
            TraceRefusal::Groups => 26,
            TraceRefusal::Values => 27,
            TraceRefusal::Room => 28,
        }
    }

    fn place(self) -> u32 {
        match self {
            TraceRefusal::Fold(fold) => fold.place(),
            TraceRefusal::Groups => 0,
            TraceRefusal::Values => 0,
            TraceRefusal::Room => 0,
        }
    }
}

impl From<FoldRefusal> for TraceRefusal {
    ghost from_gives = { λ fold refusal. refusal ≡ Fold fold };

    fn from(fold: FoldRefusal) -> TraceRefusal {
        TraceRefusal::Fold(fold)
    }
}
