// Import tried on the texts that standard input lists, and on longer ones that it describes: each group is printed with how many agree, and each that does not.
#![tactic(auto)]

mod each;
mod many;
mod trying;

ghost use Rattle.std.specs.Prelude.{◌≡◌, length};

use scripted_texts::script::Lent;
use scripted_texts::tell::Tally;
use std::io::Input;
use text::streams::Streams;

// Room for the numbers of a line.
fn numbers_room() -> [u32; 64]
    ensures { 64 ≡ length result }
{
    [0; 64]
}

// `done` ends a group, a title is printed as it stands, and the others are tried.
fn obey(
    rt: &impl Streams,
    line: &[u8],
    letter: u8,
    text: &mut [u8],
    lent: Lent,
    tally: Tally,
) -> Tally {
    let mut numbers = numbers_room();
    match letter {
        b'#' => scripted_texts::tell::title(rt, line, tally),
        b'd' => scripted_texts::tell::total(rt, tally),
        b't' => {
            let count = scripted_texts::script::read_expected(line, &mut numbers);
            let size = scripted_texts::script::put_text(line, text);
            trying::try_text(
                rt,
                line,
                text::bytes::first(text, size),
                &numbers,
                count,
                lent,
                tally,
            )
        }
        b'm' => {
            scripted_texts::script::read_numbers(line, &mut numbers);
            many::try_many(rt, line, text, &numbers, lent, tally)
        }
        b'e' => {
            scripted_texts::script::read_numbers(line, &mut numbers);
            each::try_each(rt, line, text, &numbers, lent, tally)
        }
        _ => tally,
    }
}

// How much is lent from this line on.
fn lent_after(line: &[u8], letter: u8, lent: Lent) -> Lent {
    let mut numbers = numbers_room();
    match letter {
        b'l' => {
            scripted_texts::script::read_numbers(line, &mut numbers);
            scripted_texts::script::lent_of(&numbers)
        }
        _ => lent,
    }
}

fn obey_script(rt: &impl Streams, input: &[u8], text: &mut [u8]) {
    let mut tally = scripted_texts::tell::no_tally();
    let mut lent = scripted_texts::script::enough();
    for line in input.split(|&byte| byte == b'\n') {
        let letter = text::bytes::get(line, 0);
        lent = lent_after(line, letter, lent);
        tally = obey(rt, line, letter, text, lent, tally);
    }
}

fn main(rt: HostRuntime) {
    let mut room = text::rooms::large_buffer();
    let size = text::files::read_full(&mut rt.reader(), &mut room);
    let input = &room[..size];
    let mut texts = text::files::long_room();
    obey_script(&rt, input, &mut texts);
}
