// What Sort answers, and what it promises (specs/SortOutcome.antt).
#![tactic(auto)]

ghost use Rattle.std.specs.Prelude.{◌≡◌};
ghost use Rattle.sort_answers.specs.declared.SortRefusal.TheVariants.{File};

use accept::FileRefusal;
use questions::Numbered;

// What a file is not sorted for; of a file, with its place.
#[derive(Clone, Copy, Debug, PartialEq, Eq)]
pub enum SortRefusal {
    File(FileRefusal),
    Memory,
    Loop { row: u32 },
}

impl Numbered for SortRefusal {
    ghost use Rattle.sort_answers.specs.SortAnswers.{sort_refusal_in};

    ghost refusal = { sort_refusal_in };

    fn number(self) -> u32 {
        match self {
            SortRefusal::File(file) => file.number(),
            SortRefusal::Memory => 23,
            SortRefusal::Loop { row: _ } => 22,
        }
    }

    fn place(self) -> u32 {
        match self {
            SortRefusal::File(file) => file.place(),
            SortRefusal::Memory => 0,
            SortRefusal::Loop { row } => row,
        }
    }
}

impl From<FileRefusal> for SortRefusal {
    ghost from_gives = { λ file refusal. refusal ≡ File file };

    fn from(file: FileRefusal) -> SortRefusal {
        SortRefusal::File(file)
    }
}
