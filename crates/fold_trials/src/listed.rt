// The public Fold with a clock list. One function lends the list; the others have it by value, or as numbers, four for each entry.
ghost use Rattle.std.specs.Prelude.{◌≤◌};

use clock_list::Clock;
use questions::Numbered;
use reference_fold::Folded;
use reference_questions::Refusal;
use text::bytes::put;

// Entries of the whole list, some more than Fold asks for.
pub const LIST: usize = 260;

// What entry `entry` holds before.
fn filler(entry: usize) -> Clock {
    let number = entry % LIST;
    Clock {
        label: (40000 + number) as u16,
        period: 170,
        word: 85,
        ones: (1000 + number) as u32,
    }
}

pub fn fillers() -> [Clock; LIST] {
    let mut clocks = [filler(0); LIST];
    for entry in 0..LIST {
        clocks[entry] = filler(entry);
    }
    clocks
}

// An entry as label, period, word and ones.
fn put_clock(numbers: &mut [u32], entry: usize, clock: Clock) {
    let from = 4 * (entry % LIST);
    put(numbers, from, clock.label.into());
    put(numbers, from + 1, clock.period.into());
    put(numbers, from + 2, clock.word.into());
    put(numbers, from + 3, clock.ones);
}

pub fn put_clocks(numbers: &mut [u32], clocks: [Clock; LIST]) {
    for (entry, &clock) in clocks.iter().enumerate() {
        put_clock(numbers, entry, clock);
    }
}

// A refusal in the reference's form.
pub fn refused(refusal: impl Numbered + Copy) -> Refusal {
    Refusal {
        number: refusal.number(),
        place: refusal.place(),
    }
}

// Fold with the first `entries` of a filled list, which is put as numbers; the answer is in the reference's form.
pub fn fold_listed(
    file: &[u8],
    wish: u32,
    entries: usize,
    res: &mut [u8],
    work: &mut [u8],
    numbers: &mut [u32],
) -> Result<Folded, Refusal>
    requires { entries ≤ 260 }
{
    let mut clocks = fillers();
    let answer = fold::fold(file, wish, res, work, &mut clocks[..entries]);
    put_clocks(numbers, clocks);
    match answer {
        Ok(found) => Ok(Folded {
            stem: found.stem,
            cycle: found.cycle,
            phases: found.phases,
            used: found.used,
            before: found.before,
            after: found.after,
        }),
        Err(refusal) => Err(refused(refusal)),
    }
}
