// What Fold is refused for, and questions 1 to 15, which are asked before the lasso is sought.
#![tactic(auto)]

ghost use Rattle.std.specs.Prelude.{◌≡◌};
ghost use Rattle.fold_refusals.specs.declared.FoldRefusal.TheVariants.{File};

use accept::FileRefusal;
use questions::Numbered;

pub mod asking;

// What a fold is refused for; of a file, with its place.
#[derive(Clone, Copy, Debug, PartialEq, Eq)]
pub enum FoldRefusal {
    File(FileRefusal),
    Rows,
    Registers,
    Phase { row: u32 },
    Wish,
    Memory,
    NoLasso,
}

impl Numbered for FoldRefusal {
    ghost use Rattle.fold_refusals.specs.FoldRefusals.{fold_refusal_in};

    ghost refusal = { fold_refusal_in };

    fn number(self) -> u32 {
        match self {
            FoldRefusal::File(file) => file.number(),
            FoldRefusal::Rows => 11,
            FoldRefusal::Registers => 12,
            FoldRefusal::Phase { row: _ } => 13,
            FoldRefusal::Wish => 14,
            FoldRefusal::Memory => 15,
            FoldRefusal::NoLasso => 16,
        }
    }

    fn place(self) -> u32 {
        match self {
            FoldRefusal::File(file) => file.place(),
            FoldRefusal::Rows => 0,
            FoldRefusal::Registers => 0,
            FoldRefusal::Phase { row } => row,
            FoldRefusal::Wish => 0,
            FoldRefusal::Memory => 0,
            FoldRefusal::NoLasso => 0,
        }
    }
}

impl From<FileRefusal> for FoldRefusal {
    ghost from_gives = { λ file refusal. refusal ≡ File file };

    fn from(file: FileRefusal) -> FoldRefusal {
        FoldRefusal::File(file)
    }
}
