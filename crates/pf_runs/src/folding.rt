// Fold, its answers and clocks as lines, and its clocks drawn.
use fold_answers::FoldNumbers;
use fold_refusals::FoldRefusal;
use listing::folds::{
    CLOCK_ENTRIES, Entry, entry_of, put_clock, put_entries, put_numbers, work_room,
};
use listing::rows::file_bytes;
use pf_causes::{number_of, refuse};
use pf_words::calls::Call;
use pf_words::outcome::{CallRefusal, Outcome, finish};
use pf_words::saving::save;
use text::bytes::first;
use text::out::{Out, pad, put, put_byte, to};
use text::streams::{OUTPUT, Streams};

// Where a drawing begins in its line.
const COLUMN: usize = 22;

// ---- the answers

// The answers, and the clocks' entries.
fn put_fold(rt: &impl Streams, buffer: &mut [u8], numbers: FoldNumbers, work: &[u8]) -> Out {
    let answered = put_numbers(rt, buffer, to(OUTPUT), numbers);
    put_entries(rt, buffer, answered, work, numbers.used)
}

// The lines of a fold.
fn tell_fold(rt: &impl Streams, numbers: FoldNumbers, work: &[u8]) -> Outcome {
    let mut room = text::rooms::large_buffer();
    let out = put_fold(rt, &mut room, numbers, work);
    finish(rt, &room, out)
}

// ---- drawings

// Blanks up to the drawing, in a line that began at `start`.
fn put_to_column(rt: &impl Streams, buffer: &mut [u8], out: Out, start: usize) -> Out {
    let size = out.waiting.wrapping_sub(start);
    let blanks = COLUMN - text::bytes::least(size, COLUMN);
    pad(rt, buffer, out, blanks)
}

// What is drawn for a phase.
fn level_of(word: u32, phase: u32) -> u8 {
    let bit = phase % 8;
    let rest = word >> bit;
    if rest % 2 == 0 { b'_' } else { b'#' }
}

// A clock's level in each phase.
fn put_levels(rt: &impl Streams, buffer: &mut [u8], out: Out, word: u32, phases: u32) -> Out {
    let mut now = out;
    for phase in 0..phases {
        now = put_byte(rt, buffer, now, level_of(word, phase));
    }
    put(rt, buffer, now, b"\n")
}

// The phases' numbers, above the drawings.
fn put_phases(rt: &impl Streams, buffer: &mut [u8], out: Out, phases: u32) -> Out {
    let begun = put(rt, buffer, out, b"phase                 ");
    let numbers = first(b"01234567", phases as usize);
    let numbered = put(rt, buffer, begun, numbers);
    put(rt, buffer, numbered, b"\n")
}

// The line of a clock.
fn put_drawing(rt: &impl Streams, buffer: &mut [u8], out: Out, entry: Entry, phases: u32) -> Out {
    let start = out.waiting;
    let named = put_clock(rt, buffer, out, entry);
    let begun = put_to_column(rt, buffer, named, start);
    put_levels(rt, buffer, begun, entry.word, phases)
}

// The lines of the first `used` clocks.
fn put_drawings(
    rt: &impl Streams,
    buffer: &mut [u8],
    out: Out,
    work: &[u8],
    phases: u32,
    used: u32,
) -> Out {
    let mut now = out;
    for index in 0..used {
        now = put_drawing(rt, buffer, now, entry_of(work, index), phases);
    }
    now
}

// All clocks, or that there is none.
fn put_all_drawings(
    rt: &impl Streams,
    buffer: &mut [u8],
    out: Out,
    work: &[u8],
    phases: u32,
    used: u32,
) -> Out {
    if used == 0 {
        put(rt, buffer, out, b"no clock\n")
    } else {
        put_drawings(rt, buffer, out, work, phases, used)
    }
}

// The phases, and the clocks below them.
fn put_clocks(rt: &impl Streams, buffer: &mut [u8], numbers: FoldNumbers, work: &[u8]) -> Out {
    let begun = put_phases(rt, buffer, to(OUTPUT), numbers.phases);
    put_all_drawings(rt, buffer, begun, work, numbers.phases, numbers.used)
}

// The drawing of a fold.
fn tell_clocks(rt: &impl Streams, numbers: FoldNumbers, work: &[u8]) -> Outcome {
    let mut room = text::rooms::large_buffer();
    let out = put_clocks(rt, &mut room, numbers, work);
    finish(rt, &room, out)
}

// ---- the commands

// What is made of a fold: its answers, with its file kept there or not; or its clocks drawn.
#[derive(Clone, Copy)]
enum Wanted<'a> {
    Answers,
    Kept(&'a [u8]),
    Clocks,
}

// The lines of a fold whose file is kept.
fn tell_kept(rt: &Call, numbers: FoldNumbers, work: &[u8], res: &[u8], kept: &[u8]) -> Outcome {
    save(rt, kept, first(res, file_bytes(numbers.after)))?;
    tell_fold(rt, numbers, work)
}

// What is wanted of an accepted fold.
fn tell_wanted(
    rt: &Call,
    wanted: Wanted<'_>,
    numbers: FoldNumbers,
    work: &[u8],
    res: &[u8],
) -> Outcome {
    match wanted {
        Wanted::Answers => tell_fold(rt, numbers, work),
        Wanted::Kept(kept) => tell_kept(rt, numbers, work, res, kept),
        Wanted::Clocks => tell_clocks(rt, numbers, work),
    }
}

// The fold in the lent memory.
fn fold_into(
    file: &[u8],
    wish: u32,
    res: &mut [u8],
    work: &mut [u8],
) -> Result<FoldNumbers, FoldRefusal> {
    fold_core::fold_core(file, wish, res, work, CLOCK_ENTRIES)
}

// The fold by this wish, or the refusal.
fn fold_by(
    rt: &Call,
    wanted: Wanted<'_>,
    path: &[u8],
    file: &[u8],
    wish: u32,
    word: &[u8],
) -> Outcome {
    let mut result = text::rooms::large_buffer();
    let mut work = work_room();
    match fold_into(file, wish, &mut result, &mut work) {
        Ok(numbers) => tell_wanted(rt, wanted, numbers, &work, &result),
        Err(refusal) => Err(refuse(rt, path, 0, file, c_answers::refusal_numbers(refusal), word)),
    }
}

// The wish: the number that the word after the file has, if there is one; else 0.
fn wish_of(rt: &impl Streams, count: usize, word: &[u8]) -> Result<u32, CallRefusal> {
    if count < 2 {
        return Ok(0);
    }
    number_of(rt, b"the wish ", word, b" is not a number\n")
}

// What is wanted of the fold by the wish, if it is given.
fn fold_wanted(
    rt: &Call,
    wanted: Wanted<'_>,
    count: usize,
    path: &[u8],
    file: &[u8],
    word: &[u8],
) -> Outcome {
    let wish = wish_of(rt, count, word)?;
    fold_by(rt, wanted, path, file, wish, word)
}

// The file, the wish, and where the result is kept; the last two may be left out.
pub fn fold(
    rt: &Call,
    count: usize,
    path: &[u8],
    file: &[u8],
    word: &[u8],
    kept: &[u8],
) -> Outcome {
    let wanted = if count < 3 {
        Wanted::Answers
    } else {
        Wanted::Kept(kept)
    };
    fold_wanted(rt, wanted, count, path, file, word)
}

// The file and the wish, which may be left out.
pub fn clocks(rt: &Call, count: usize, path: &[u8], file: &[u8], word: &[u8]) -> Outcome {
    fold_wanted(rt, Wanted::Clocks, count, path, file, word)
}
