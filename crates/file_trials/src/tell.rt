// What is seen is printed behind its line of the script, and held to what the line expects.
use accept::FileRefusal;
use run_answers::RunRefusal;
use sort_answers::SortRefusal;
use text::out::{print_decimal, write_all};
use text::streams::Streams;

// A refusal's number and place by the scope paper, in a table of its own; 0 and 0 for success.
#[derive(Clone, Copy, Debug, PartialEq, Eq)]
pub struct Seen(pub u32, pub u32);

impl From<FileRefusal> for Seen {
    fn from(refusal: FileRefusal) -> Seen {
        match refusal {
            FileRefusal::Length => Seen(1, 0),
            FileRefusal::Sum { block } => Seen(2, block),
            FileRefusal::Header { block } => Seen(3, block),
            FileRefusal::RowCount { block } => Seen(4, block),
            FileRefusal::Unused { block } => Seen(5, block),
            FileRefusal::Kind { row } => Seen(6, row),
            FileRefusal::Field { row } => Seen(7, row),
            FileRefusal::Label { row } => Seen(8, row),
            FileRefusal::Literal { row } => Seen(9, row),
            FileRefusal::NoOutput => Seen(10, 0),
        }
    }
}

impl From<RunRefusal> for Seen {
    fn from(refusal: RunRefusal) -> Seen {
        match refusal {
            RunRefusal::File(file) => Seen::from(file),
            RunRefusal::Steps => Seen(17, 0),
            RunRefusal::Lists => Seen(18, 0),
            RunRefusal::Value => Seen(19, 0),
            RunRefusal::Memory => Seen(20, 0),
        }
    }
}

impl From<SortRefusal> for Seen {
    fn from(refusal: SortRefusal) -> Seen {
        match refusal {
            SortRefusal::File(file) => Seen::from(file),
            SortRefusal::Loop { row } => Seen(22, row),
            SortRefusal::Memory => Seen(23, 0),
        }
    }
}

// How many expectations there were, and how many were met.
#[derive(Clone, Copy)]
pub struct Tally {
    pub asked: u32,
    pub met: u32,
}

pub fn no_tally() -> Tally {
    Tally { asked: 0, met: 0 }
}

pub fn seen_of<T: Copy, R: Copy>(answer: Result<T, R>) -> Seen
where
    Seen: From<R>,
{
    match answer {
        Ok(_) => Seen(0, 0),
        Err(refusal) => Seen::from(refusal),
    }
}

// ---- printed lines

pub fn print_number(rt: &impl Streams, value: u64) {
    write_all(rt, 1, b" ");
    print_decimal(rt, 1, value);
}

// One expectation more; one that is not met says so in its line.
pub fn judged(rt: &impl Streams, tally: Tally, right: bool) -> Tally {
    let asked = tally.asked.wrapping_add(1);
    let met = tally.met.wrapping_add(u32::from(right));
    if !right {
        write_all(rt, 1, b" NOT AS EXPECTED");
    }
    write_all(rt, 1, b"\n");
    Tally { asked, met }
}

// A number that is seen.
pub fn number(rt: &impl Streams, tally: Tally, value: u32, expected: u32) -> Tally {
    print_number(rt, value as u64);
    judged(rt, tally, value == expected)
}

// A refusal that is seen, and whether the bytes shown or left are right.
pub fn outcome(rt: &impl Streams, tally: Tally, value: Seen, expected: Seen, right: bool) -> Tally {
    print_number(rt, value.0 as u64);
    print_number(rt, value.1 as u64);
    if !right {
        write_all(rt, 1, b" and leaves the wrong bytes");
    }
    judged(rt, tally, value == expected && right)
}

// How many expectations were met.
pub fn total(rt: &impl Streams, tally: Tally) -> Tally {
    write_all(rt, 1, b"met");
    print_number(rt, tally.met as u64);
    write_all(rt, 1, b" of");
    print_number(rt, tally.asked as u64);
    write_all(rt, 1, b"\n");
    no_tally()
}
