// What Import answers, and what it promises (specs/ImportOutcome.antt).
#![tactic(auto)]

use questions::Numbered;

// What a text is not imported for; of a loop of gates the row before sorting.
#[derive(Clone, Copy, Debug, PartialEq, Eq)]
pub enum ImportRefusal {
    Memory,
    Text,
    Rows,
    Loop { row: u32 },
}

impl Numbered for ImportRefusal {
    ghost use Rattle.import_answers.specs.ImportAnswers.{import_refusal_in};

    ghost refusal = { import_refusal_in };

    fn number(self) -> u32 {
        match self {
            ImportRefusal::Memory => 23,
            ImportRefusal::Text => 24,
            ImportRefusal::Rows => 25,
            ImportRefusal::Loop { row: _ } => 22,
        }
    }

    fn place(self) -> u32 {
        match self {
            ImportRefusal::Memory => 0,
            ImportRefusal::Text => 0,
            ImportRefusal::Rows => 0,
            ImportRefusal::Loop { row } => row,
        }
    }
}
