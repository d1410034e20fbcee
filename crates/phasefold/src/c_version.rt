// The number of the interface, for callers in C.
ghost use Rattle.std.specs.Prelude.{◌≡◌};
ghost use Rattle.c_answers.specs.AnswerNumbers.{interface_number};

pub fn pf_version() -> u32
    ensures { result ≡ interface_number }
{
    c_answers::interface_number()
}
