// Fold's answers and clock entries as lines of text.
ghost use Rattle.std.specs.Prelude.{◌≡◌, ◌+◌, ◌≤◌, length};

use fold_answers::FoldNumbers;
use fold_memory::ENTRIES;
use text::out::{Out, put_filled, two};
use text::streams::Streams;

// How many entries a clock list has room for.
pub const CLOCK_ENTRIES: usize = 256;

// Work for a fold.
pub fn work_room() -> [u8; 49152]
    ensures { 49152 ≡ length result }
{
    [0; 49152]
}

// A clock entry.
#[derive(Clone, Copy)]
pub struct Entry {
    pub label: u32,
    pub period: u32,
    pub word: u32,
    pub ones: u32,
}

// The entry that is packed at `offset`.
fn entry_at(work: &[u8], offset: usize) -> Entry
    requires { offset + 8 ≤ length work.now }
{
    let period_at = offset + 2;
    let word_at = offset + 3;
    let ones_at = offset + 4;
    Entry {
        label: memory::read_u16(work, offset),
        period: memory::read_u8(work, period_at),
        word: memory::read_u8(work, word_at),
        ones: memory::read_u32(work, ones_at),
    }
}

// Entry number `index` in the work memory of a fold; zeros past the end.
pub fn entry_of(work: &[u8], index: u32) -> Entry {
    let offset = ENTRIES + 8 * index as usize;
    let end = offset + 8;
    if end <= work.len() {
        return entry_at(work, offset);
    }
    Entry {
        label: 0,
        period: 0,
        word: 0,
        ones: 0,
    }
}

// The line of the answers.
pub fn put_numbers(rt: &impl Streams, buffer: &mut [u8], out: Out, numbers: FoldNumbers) -> Out {
    let stem = numbers.stem as usize;
    let cycle = numbers.cycle as usize;
    let phases = numbers.phases as usize;
    let used = numbers.used as usize;
    let before = numbers.before as usize;
    let after = numbers.after as usize;
    let answers = [stem, cycle, phases, used, before, after];
    put_filled(
        rt,
        buffer,
        out,
        b"stem # cycle # phases # used # rows # to #\n",
        answers,
    )
}

// A clock's label and period.
pub fn put_clock(rt: &impl Streams, buffer: &mut [u8], out: Out, entry: Entry) -> Out {
    let label = entry.label as usize;
    let period = entry.period as usize;
    put_filled(rt, buffer, out, b"clock # period #", two(label, period))
}

// The line of a clock entry.
fn put_entry(rt: &impl Streams, buffer: &mut [u8], out: Out, entry: Entry) -> Out {
    let word = entry.word as usize;
    let ones = entry.ones as usize;
    let named = put_clock(rt, buffer, out, entry);
    put_filled(rt, buffer, named, b" word # ones #\n", two(word, ones))
}

// The lines of the first `used` entries.
pub fn put_entries(rt: &impl Streams, buffer: &mut [u8], out: Out, work: &[u8], used: u32) -> Out {
    let mut now = out;
    for index in 0..used {
        now = put_entry(rt, buffer, now, entry_of(work, index));
    }
    now
}
