// Random netlists and damaged files folded and sorted, and random AIGER texts imported, by the product and by the reference, a
// folder, a sorter and an importer written separately from the paper's text; files and what is made of them run side by side; values of folds traced back; files at the limits of a file; and the entries of the trainer's table that have no star.
#![tactic(auto)]

mod imports;
mod limits;

use reference_fold::Folded;
use reference_questions::Refusal;
use text::bytes::first;
use text::out::write_all;
use text::streams::Streams;
use trial_netlists::netlists::Size;
use trial_pieces::dice::chance;

// How long the campaign is. A round makes SMALL small netlists, a large one and one at the limits, each also damaged; every
// LONG rounds one past the limits.
const ROUNDS: usize = 60;

const SMALL: usize = 20;

const LONG: usize = 12;

const SEED: u64 = 88172645463325252;

// The wishes 0 to 8.
const WISHES: u32 = 9;

fn try_wishes(file: &[u8], seed: &mut u64, tally: &mut [u64]) {
    for wish in 0..WISHES {
        trial_operations::folds::try_wish(file, wish, seed, tally);
    }
}

// A wish past 8, and a clock list that is too short.
fn try_refused(file: &[u8], tally: &mut [u64]) {
    let _ = trial_operations::folds::try_alone(file, 9, 256, tally);
    let _ = trial_operations::folds::try_alone(file, 0, 255, tally);
}

fn try_file(file: &[u8], seed: &mut u64, tally: &mut [u64]) {
    trial_operations::files::try_operations(file, *seed, tally);
    trial_traces::try_traces(file, *seed, tally);
    try_wishes(file, seed, tally);
    if chance(seed, 16) {
        try_refused(file, tally);
    }
}

// A netlist of this kind in a file of zeros; the answer is its length.
fn put_fresh(kind: Size, file: &mut [u8], seed: &mut u64) -> usize {
    let style = trial_netlists::netlists::style_of(kind, seed);
    trial_netlists::netlists::put_netlist(file, seed, style)
}

// A netlist, the same with its nodes in any order, and the same damaged.
fn try_netlist(kind: Size, seed: &mut u64, tally: &mut [u64]) {
    let mut file = trial_tally::rooms::long_zeros();
    let size = put_fresh(kind, &mut file, seed);
    try_file(first(&file, size), seed, tally);
    trial_operations::sorts::try_mixed(first(&file, size), *seed, tally);
    let left = trial_netlists::damage::damage(&mut file, seed, size);
    try_file(first(&file, left), seed, tally);
}

fn try_small(seed: &mut u64, tally: &mut [u64]) {
    for _ in 0..SMALL {
        try_netlist(Size::Small, seed, tally);
    }
}

// Every LONG rounds one past the limits.
fn try_long(round: usize, seed: &mut u64, tally: &mut [u64]) {
    if round % LONG == 0 {
        try_netlist(Size::PastLimits, seed, tally);
    }
}

fn try_round(round: usize, seed: &mut u64, tally: &mut [u64]) {
    try_small(seed, tally);
    try_netlist(Size::Large, seed, tally);
    try_netlist(Size::AtLimits, seed, tally);
    try_long(round, seed, tally);
}

fn try_rounds(tally: &mut [u64]) {
    let mut seed = SEED;
    for round in 0..ROUNDS {
        try_round(round, &mut seed, tally);
    }
}

// ---- the table

fn print_lasso(rt: &impl Streams, answer: Folded) {
    trial_tally::tally::print(rt, b"stem ", answer.stem as u64);
    trial_tally::tally::print(rt, b" cycle ", answer.cycle as u64);
    trial_tally::tally::print(rt, b" phases ", answer.phases as u64);
}

fn print_rest(rt: &impl Streams, answer: Folded) {
    trial_tally::tally::print(rt, b" used ", answer.used as u64);
    trial_tally::tally::print(rt, b" rows ", answer.before as u64);
    trial_tally::tally::print(rt, b" to ", answer.after as u64);
}

fn print_refusal(rt: &impl Streams, refusal: Refusal) {
    trial_tally::tally::print(rt, b"refused ", refusal.number as u64);
    trial_tally::tally::print(rt, b" ", refusal.place as u64);
}

fn print_answer(rt: &impl Streams, answer: Result<Folded, Refusal>) {
    match answer {
        Ok(folded) => {
            print_lasso(rt, folded);
            print_rest(rt, folded);
        }
        Err(refusal) => print_refusal(rt, refusal),
    }
}

// A counter of so many bits in a file of zeros, folded.
fn fold_counter(bits: usize, tally: &mut [u64]) -> Result<Folded, Refusal> {
    let mut file = trial_tally::rooms::long_zeros();
    let size = trial_netlists::netlists::put_counter(&mut file, bits);
    trial_operations::folds::try_alone(first(&file, size), 0, 256, tally)
}

fn try_counter(rt: &impl Streams, bits: usize, tally: &mut [u64]) {
    let answer = fold_counter(bits, tally);
    trial_tally::tally::print(rt, b"counter of ", bits as u64);
    write_all(rt, 1, b" bits: ");
    print_answer(rt, answer);
    write_all(rt, 1, b"\n");
}

fn main(rt: HostRuntime) {
    let mut tally = trial_tally::tally::fresh();
    try_counter(&rt, 8, &mut tally);
    try_counter(&rt, 9, &mut tally);
    try_rounds(&mut tally);
    imports::try_all(&mut tally);
    limits::try_all(&mut tally);
    trial_tally::tally::print_all(&rt, &tally);
}
