// The public Fold tried, and Trace where its answers are known. Result, work and clock list are filled before; the answer and what is left of the three are held against the
// reference, a folder written separately, and against the fillers.
#![tactic(auto)]

ghost use Rattle.std.specs.Prelude.{◌≡◌, length};

mod designs;
mod folds;
mod known_traces;
mod listed;

use folds::try_fold;
use reference_fold::Lent;
use text::bytes::first;

fn lent(res: usize, work: usize, clocks: usize) -> Lent {
    Lent {
        result: res,
        work,
        clocks,
    }
}

// Every wish, and 9, with memories of several lengths.
fn try_wishes(file: &[u8], tally: &mut [usize]) {
    for wish in 0..10 {
        let memories = lent(65536 + 7 * wish, 49152 + 5 * wish, 256 + wish % 5);
        try_fold(file, wish as u32, memories, tally);
    }
}

// Each memory too short by one.
fn try_short(file: &[u8], tally: &mut [usize]) {
    try_fold(file, 0, lent(65535, 49152, 256), tally);
    try_fold(file, 0, lent(65536, 49151, 256), tally);
    try_fold(file, 0, lent(65536, 49152, 255), tally);
}

// Room for the longest design.
fn design_room() -> [u8; 262144]
    ensures { 262144 ≡ length result }
{
    [0; 262144]
}

// At last with a byte of the last check changed.
fn try_design(design: usize, tally: &mut [usize]) {
    let mut file = design_room();
    let size = designs::put_design(&mut file, design);
    try_wishes(first(&file, size), tally);
    try_short(first(&file, size), tally);
    text::bytes::put(&mut file, size.wrapping_sub(3), 77);
    try_fold(first(&file, size), 0, lent(65536, 49152, 256), tally);
}

fn try_designs(tally: &mut [usize]) {
    for design in 0..designs::DESIGNS {
        try_design(design, tally);
    }
}

// A block more than a file may have.
fn longer_room() -> [u8; 262656]
    ensures { 262656 ≡ length result }
{
    [0; 262656]
}

fn try_longer(tally: &mut [usize]) {
    let room = longer_room();
    try_fold(&room, 0, lent(65536, 49152, 256), tally);
}

fn try_traced(design: usize, number: u32, tally: &mut [usize]) {
    let mut file = design_room();
    let size = designs::put_design(&mut file, design);
    known_traces::try_traces(first(&file, size), number, tally);
}

fn main(rt: HostRuntime) {
    let mut counts = [0usize; folds::COUNTS];
    try_designs(&mut counts);
    try_longer(&mut counts);
    try_traced(0, 0, &mut counts);
    try_traced(designs::TRACED, 1, &mut counts);
    folds::print(&rt, counts);
}
