// How many agree, and which do not.
use text::out::{print_decimal, write_all};
use text::streams::Streams;

// How many were tried, and how many agree.
#[derive(Clone, Copy)]
pub struct Tally {
    pub asked: u32,
    pub met: u32,
}

pub fn no_tally() -> Tally {
    Tally { asked: 0, met: 0 }
}

pub fn title(rt: &impl Streams, line: &[u8], tally: Tally) -> Tally {
    write_all(rt, 1, line);
    write_all(rt, 1, b"\n");
    tally
}

fn print(rt: &impl Streams, words: &[u8], number: u32) {
    write_all(rt, 1, words);
    print_decimal(rt, 1, number.into());
}

// Number and place of a refusal, 0 and 0 for none, and how many rows there are.
#[derive(Clone, Copy, Debug, PartialEq, Eq)]
pub struct Seen(pub u32, pub u32, pub u32);

// One that does not agree is told with its line.
fn tell(rt: &impl Streams, line: &[u8], who: &[u8], seen: Seen, answered: bool) {
    write_all(rt, 1, line);
    write_all(rt, 1, who);
    print(rt, b": ", seen.0);
    print(rt, b" ", seen.1);
    print(rt, b" ", seen.2);
    if answered {
        write_all(rt, 1, b" and leaves the wrong bytes");
    }
    write_all(rt, 1, b"\n");
}

// One more: the answer, and whether result and work hold what they should.
pub fn judge(
    rt: &impl Streams,
    line: &[u8],
    who: &[u8],
    seen: Seen,
    expected: Seen,
    left: bool,
    tally: Tally,
) -> Tally {
    let answered = seen == expected;
    let right = answered && left;
    if !right {
        tell(rt, line, who, seen, answered);
    }
    Tally {
        asked: tally.asked.wrapping_add(1),
        met: tally.met.wrapping_add(u32::from(right)),
    }
}

pub fn total(rt: &impl Streams, tally: Tally) -> Tally {
    print(rt, b"", tally.met);
    print(rt, b" of ", tally.asked);
    write_all(rt, 1, b" answers agree\n");
    no_tally()
}
