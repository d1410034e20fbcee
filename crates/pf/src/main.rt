// The command pf: Check, Count, Show, Sort, Fold, Run and Trace of netlist files, their rows as text and back, AIGER text in, and clocks drawn.
// The script that starts it opens the descriptors of a result that is kept (`saving`), and takes its exit status as the outcome.
#![tactic(auto)]

mod call;

use call::Command;
use listing::rows::file_room;
use pf_words::calls::Call;
use pf_words::outcome::{CallRefusal, Outcome, fail, fail_by_cause, tell_status};
use std::cell::Cell;
use std::env::Env;
use std::process::ExitCode;
use text::bytes::{first, same};

// A trace, whose phase, values and last word are words 5 to 7 of the call.
fn trace(rt: &Call, count: usize, path: &[u8], file: &[u8], wish: &[u8], groups: &[u8]) -> Outcome {
    let mut phase = text::rooms::buffer();
    let mut values = text::rooms::buffer();
    let mut last = text::rooms::buffer();
    let phase_size = text::args::arg(&rt.host, 5, &mut phase);
    let values_size = text::args::arg(&rt.host, 6, &mut values);
    let last_size = text::args::arg(&rt.host, 7, &mut last);
    pf_traces::trace(
        rt,
        count,
        path,
        file,
        wish,
        groups,
        &phase[..phase_size],
        &values[..values_size],
        &last[..last_size],
    )
}

// The commands that take a netlist file, its bytes read; `count` is how many words come after the command's name.
fn answer(
    rt: &Call,
    command: Option<Command>,
    count: usize,
    path: &[u8],
    file: &[u8],
    second: &[u8],
    third: &[u8],
) -> Outcome {
    match command {
        Some(Command::Check) => pf_files::answers::check(rt, path, file),
        Some(Command::Count) => pf_files::answers::count(rt, path, file),
        Some(Command::Show) => pf_files::answers::show(rt, path, file, second),
        Some(Command::Rows) => pf_files::answers::rows(rt, path, file),
        Some(Command::Sort) => pf_files::sorting::sort(rt, path, file, second),
        Some(Command::Fold) => pf_runs::folding::fold(rt, count, path, file, second, third),
        Some(Command::Clocks) => pf_runs::folding::clocks(rt, count, path, file, second),
        Some(Command::Run) => pf_runs::running::run(rt, path, file, second, third),
        Some(Command::Trace) => trace(rt, count, path, file, second, third),
        _ => Err(fail(rt, b"no such command\n")),
    }
}

// The netlist file is read.
fn read_and_answer(
    rt: &Call,
    command: Option<Command>,
    count: usize,
    path: &[u8],
    second: &[u8],
    third: &[u8],
    room: &mut [u8],
) -> Outcome {
    match text::files::load(&rt.host, path, room) {
        Ok(loaded) => {
            let file = first(room, loaded.size);
            answer(rt, command, count, path, file, second, third)
        }
        Err(cause) => Err(fail_by_cause(rt, path, cause)),
    }
}

// A command on the netlist file at `path`.
fn perform_on_file(
    rt: &Call,
    command: Option<Command>,
    count: usize,
    path: &[u8],
    second: &[u8],
    third: &[u8],
) -> Outcome {
    let mut room = file_room();
    read_and_answer(rt, command, count, path, second, third, &mut room)
}

// Whether word `index` of the call stands for standard input, or as a result for standard output.
fn is_input(rt: &impl Env, index: usize) -> bool {
    let mut word = text::rooms::buffer();
    let size = text::args::arg(rt, index, &mut word);
    same(&word[..size], b"-")
}

// Whether both the file and the values of a run or a trace are to be read from standard input.
fn reads_twice(rt: &impl Env, command: Option<Command>) -> bool {
    match command {
        Some(Command::Run) => is_input(rt, 2) && is_input(rt, 4),
        Some(Command::Trace) => is_input(rt, 2) && is_input(rt, 6),
        _ => false,
    }
}

// A command, unless it would read standard input twice.
fn perform(
    rt: &Call,
    command: Option<Command>,
    count: usize,
    path: &[u8],
    second: &[u8],
    third: &[u8],
) -> Outcome {
    if reads_twice(&rt.host, command) {
        return Err(fail(rt, b"FILE and VALUES cannot both be standard input\n"));
    }
    match command {
        Some(Command::Make) => pf_files::make::make(rt, path, second),
        Some(Command::Import) => pf_files::importing::import(rt, path, second),
        _ => perform_on_file(rt, command, count, path, second, third),
    }
}

// Whether word `index` of the call is too long to be taken.
fn is_too_long(rt: &impl Env, index: usize) -> bool {
    let mut word = text::rooms::buffer();
    text::args::is_too_long(rt, index, &mut word)
}

// Whether one of the seven words is.
fn any_too_long(rt: &impl Env) -> bool {
    (1..=7).any(|index| is_too_long(rt, index))
}

// What the call's first word asks for.
fn first_command(rt: &impl Env) -> Option<Command> {
    let mut word = text::rooms::buffer();
    let size = text::args::arg(rt, 1, &mut word);
    call::command_of(&word[..size])
}

// The command and its words; `count` come after the command's name.
fn perform_words(rt: &Call, count: usize) -> Outcome {
    if any_too_long(&rt.host) {
        return Err(fail(rt, b"a word of the call has more than 4096 bytes\n"));
    }
    let mut path = text::rooms::buffer();
    let mut second = text::rooms::buffer();
    let mut third = text::rooms::buffer();
    let path_size = text::args::arg(&rt.host, 2, &mut path);
    let second_size = text::args::arg(&rt.host, 3, &mut second);
    let third_size = text::args::arg(&rt.host, 4, &mut third);
    perform(
        rt,
        first_command(&rt.host),
        count,
        &path[..path_size],
        &second[..second_size],
        &third[..third_size],
    )
}

// Whether the call's result is kept, and goes to standard output; `count` words come after the command's name.
fn keeps_on_output(rt: &impl Env, count: usize) -> bool {
    match first_command(rt) {
        Some(Command::Make | Command::Import | Command::Sort) => is_input(rt, 3),
        Some(Command::Fold) => 2 < count && is_input(rt, 4),
        _ => false,
    }
}

// The outcome; where nobody reads what the call writes, it has failed.
fn outcome_if_read(call: &Call, outcome: Outcome) -> Outcome {
    if call.unread.get() {
        Err(CallRefusal::Failed)
    } else {
        outcome
    }
}

// The outcome of the call is told.
fn main(rt: HostRuntime) -> ExitCode {
    let count = text::args::arg_count(&rt).wrapping_sub(2);
    let call = Call {
        host: rt,
        keeps_on_output: keeps_on_output(&rt, count),
        unread: Cell::new(false),
    };
    let outcome = perform_words(&call, count);
    tell_status(outcome_if_read(&call, outcome))
}
