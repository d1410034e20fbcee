// Definitions, laws and theorems; of code only what every refusal answers.
#![tactic(auto)]

ghost use Rattle.std.specs.Prelude.{◌≡◌};
ghost use Rattle.questions.specs.Questions.{Refusal};

// A refusal: its number, and the place of what is wrong.
pub trait Numbered {
    ghost refusal: { Self → Refusal };

    fn number(self) -> u32
        ensures { result ≡ (refusal self).number };

    fn place(self) -> u32
        ensures { result ≡ (refusal self).place };
}
