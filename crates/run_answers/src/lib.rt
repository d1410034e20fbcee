// What Run is refused for, and what it promises (specs/Ran.antt).
#![tactic(auto)]

ghost use Rattle.std.specs.Prelude.{◌≡◌};
ghost use Rattle.run_answers.specs.declared.RunRefusal.TheVariants.{File};

use accept::FileRefusal;
use questions::Numbered;

// What a run is refused for; of a file, with its place.
#[derive(Clone, Copy, Debug, PartialEq, Eq)]
pub enum RunRefusal {
    File(FileRefusal),
    Steps,
    Lists,
    Value,
    Memory,
}

impl Numbered for RunRefusal {
    ghost use Rattle.run_answers.specs.RunAnswers.{run_refusal_in};

    ghost refusal = { run_refusal_in };

    fn number(self) -> u32 {
        match self {
            RunRefusal::File(file) => file.number(),
            RunRefusal::Steps => 17,
            RunRefusal::Lists => 18,
            RunRefusal::Value => 19,
            RunRefusal::Memory => 20,
        }
    }

    fn place(self) -> u32 {
        match self {
            RunRefusal::File(file) => file.place(),
            RunRefusal::Steps => 0,
            RunRefusal::Lists => 0,
            RunRefusal::Value => 0,
            RunRefusal::Memory => 0,
        }
    }
}

impl From<FileRefusal> for RunRefusal {
    ghost from_gives = { λ file refusal. refusal ≡ File file };

    fn from(file: FileRefusal) -> RunRefusal {
        RunRefusal::File(file)
    }
}
