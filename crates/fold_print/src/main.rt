// The printing program: one netlist file on standard input is folded with wish 0; the answers, the clock entries and the result's rows are printed, or the refusal.
#![tactic(auto)]

ghost use Rattle.std.specs.Prelude.{◌≡◌, length};

use fold_answers::FoldNumbers;
use fold_refusals::FoldRefusal;
use listing::folds::{CLOCK_ENTRIES, work_room};
use questions::Numbered;
use std::io::Input;
use text::bytes::first;
use text::out::{Out, to};
use text::streams::{OUTPUT, Streams};

const WISH: u32 = 0;

// The program reads 65,536 bytes, though a file may have more: the room has one byte more than that. A longer input fills it, and 65,537 is no multiple of 512, so it is refused with 1, even where the file is sound.
fn input_room() -> [u8; 65537]
    ensures { 65537 ≡ length result }
{
    [0; 65537]
}

// The answers, the clock entries and the rows.
fn put_fold(
    rt: &impl Streams,
    buffer: &mut [u8],
    numbers: FoldNumbers,
    res: &[u8],
    work: &[u8],
) -> Out {
    let answered = listing::folds::put_numbers(rt, buffer, to(OUTPUT), numbers);
    let clocked = listing::folds::put_entries(rt, buffer, answered, work, numbers.used);
    listing::rows::put_rows(rt, buffer, clocked, res, numbers.after as usize)
}

// The line of a refusal.
fn put_refused(rt: &impl Streams, buffer: &mut [u8], refusal: FoldRefusal) -> Out {
    let number = refusal.number();
    let place = refusal.place();
    listing::refusals::put_refusal(rt, buffer, to(OUTPUT), number, place)
}

// The fold in the lent memory, and its text.
fn put_answer(
    rt: &impl Streams,
    buffer: &mut [u8],
    file: &[u8],
    res: &mut [u8],
    work: &mut [u8],
) -> Out {
    match fold_core::fold_core(file, WISH, res, work, CLOCK_ENTRIES) {
        Ok(numbers) => put_fold(rt, buffer, numbers, res, work),
        Err(refusal) => put_refused(rt, buffer, refusal),
    }
}

// The text is written.
fn fold_and_print(rt: &impl Streams, file: &[u8]) {
    let mut buffer = text::rooms::large_buffer();
    let mut result = text::rooms::large_buffer();
    let mut work = work_room();
    let out = put_answer(rt, &mut buffer, file, &mut result, &mut work);
    text::out::flush(rt, &buffer, out);
}

// Standard input is read; where that fails, nothing is printed.
fn read_and_print(rt: &(impl Streams + Input), room: &mut [u8]) {
    match text::files::load_from(&mut rt.reader(), room) {
        Ok(loaded) => fold_and_print(rt, first(room, loaded.size)),
        Err(cause) => text::causes::fail(rt, b"standard input", cause),
    }
}

fn main(rt: HostRuntime) {
    let mut room = input_room();
    read_and_print(&rt, &mut room);
}
