// The commands by their names.

// What a call asks for.
#[derive(Clone, Copy)]
pub enum Command {
    Check,
    Count,
    Show,
    Rows,
    Make,
    Import,
    Sort,
    Fold,
    Clocks,
    Run,
    Trace,
}

// The command of this name.
pub fn command_of(word: &[u8]) -> Option<Command> {
    match word {
        b"check" => Some(Command::Check),
        b"count" => Some(Command::Count),
        b"show" => Some(Command::Show),
        b"rows" => Some(Command::Rows),
        b"make" => Some(Command::Make),
        b"import" => Some(Command::Import),
        b"sort" => Some(Command::Sort),
        b"fold" => Some(Command::Fold),
        b"clocks" => Some(Command::Clocks),
        b"run" => Some(Command::Run),
        b"trace" => Some(Command::Trace),
        _ => None,
    }
}
