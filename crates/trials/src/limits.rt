// Files at the limits of a file: so many blocks that byte 3 of their heads counts, the most blocks, and one more. Heads are
// damaged and blocks exchanged, and Run and Sort are lent what they ask for by the rows, or a byte less. All of this has a seed and counts of its own.
use reference_questions::Refusal;
use reference_rows::rows::{Row, count_kind, kind_at, row_at, rows_of};
use reference_writing::writer::seal;
use text::bytes::{first, get, put, rest};
use trial_netlists::netlists::{PLAIN, Style};
use trial_pieces::dice::{plain, put_values, roll, roll_from};
use trial_pieces::pieces::plus;
use trial_runs::{number_of, refused};
use trial_tally::rooms;
use trial_tally::tally::{add, add_if, hold};

const SEED: u64 = 3935559000370003845;

const MOST_BLOCKS: usize = 512;

// How many lengths are tried, how many numbers of rows, and how many lengths of work for each.
const LENGTHS: usize = 8;

const ROWS: usize = 4;

const WORKS: usize = 4;

// How many steps Run takes.
const STEPS: usize = 2;

// ---- netlists

// So many nodes by chance, and inputs up to so many rows.
fn style_of(nodes: usize, rows: usize) -> Style {
    Style {
        nodes,
        rows,
        ..PLAIN
    }
}

// A netlist of so many rows in a file of zeros, most of them inputs; the answer is the file's length.
fn put_long(file: &mut [u8], seed: &mut u64, rows: usize) -> usize {
    let nodes = roll_from(seed, 200, 800);
    trial_netlists::netlists::put_netlist(file, seed, style_of(nodes, rows))
}

// The rows of so many blocks; the last block of a file of the most is full.
fn rows_in(seed: &mut u64, blocks: usize) -> usize {
    let any = roll_from(seed, 1, 63);
    let last = if blocks == MOST_BLOCKS { 63 } else { any };
    let before = blocks.wrapping_sub(1);
    plus(63 * (before % 1024), last)
}

// ---- lengths

// Around 128, where work grows, 256, where byte 3 of a head counts, and the most.
fn blocks_of(i: usize) -> usize {
    match i {
        0 => 128,
        1 => 129,
        2 => 255,
        3 => 256,
        4 => 257,
        5 => 511,
        6 => MOST_BLOCKS,
        _ => 513,
    }
}

fn try_show(file: &[u8], right: Result<(), Refusal>, block: usize, tally: &mut [u64]) {
    let number = (block % 65536) as u32;
    let expected = trial_operations::files::of_show(right, file.len() / 512, number);
    let alike = trial_operations::files::show_right(file, number, expected);
    add_if(tally, trial_tally::tally::LONG_SHOWN, expected.is_ok());
    add_if(
        tally,
        trial_tally::tally::LONG_PAST_END,
        number_of(expected) == 21,
    );
    hold(tally, alike, trial_tally::tally::SHOWS);
}

// Show of each block, and of the one after the last.
fn try_shows(file: &[u8], right: Result<(), Refusal>, tally: &mut [u64]) {
    for block in 0..plus(file.len() / 512, 1) {
        try_show(file, right, block, tally);
    }
}

// Check, by both; the answer is counted by its number from `base` on.
fn try_check(file: &[u8], base: usize, tally: &mut [u64]) -> Result<(), Refusal> {
    let right = reference_questions::check(file);
    let alike = trial_operations::files::check_right(file, right);
    add(tally, plus(base, number_of(right) as usize), 1);
    hold(tally, alike, trial_tally::tally::CHECKS);
    right
}

fn try_questions(file: &[u8], tally: &mut [u64]) {
    let right = try_check(file, trial_tally::tally::LONGS, tally);
    let alike = trial_operations::files::count_right(file, right);
    hold(tally, alike, trial_tally::tally::COUNTS);
    try_shows(file, right, tally);
}

// Folds, and sorts of the file with its nodes in any order, of the same damaged, and of the same with a loop, by their number.
fn take_made(own: &[u64], tally: &mut [u64]) {
    trial_tally::tally::take(own, 0, 17, tally, trial_tally::tally::LONG_FOLDS);
    trial_tally::tally::take(
        own,
        trial_tally::tally::SORTS,
        24,
        tally,
        trial_tally::tally::LONG_SORTS,
    );
    trial_tally::tally::take_differences(own, tally);
}

// The first gate from `from` on.
fn next_gate(file: &[u8], from: usize, rows: usize) -> Option<usize> {
    (from..rows).find(|&at| (3..=5).contains(&kind_at(file, at)))
}

// A gate by chance names itself; if there is none from some row on, nothing is changed.
fn put_loop(file: &mut [u8], seed: &mut u64, rows: usize) {
    if let Some(at) = next_gate(file, roll(seed, rows), rows) {
        let looped = Row {
            reset: 0,
            a: plain(at),
            ..row_at(file, at)
        };
        trial_netlists::damage::put_damaged(file, at, looped);
    }
}

// Sort of the file with its nodes in any order and a loop.
fn try_loop(file: &[u8], seed: u64, tally: &mut [u64]) {
    let mut mixed = rooms::long_zeros();
    let mut own = seed;
    trial_mixing::put_mixed(file, &mut own, &mut mixed);
    put_loop(&mut mixed, &mut own, rows_of(file));
    trial_operations::sorts::try_sort(first(&mixed, file.len()), &mut own, tally);
}

fn try_made(file: &[u8], seed: u64, tally: &mut [u64]) {
    let mut own = trial_tally::tally::fresh();
    let _ = trial_operations::folds::try_alone(file, 0, 256, &mut own);
    trial_operations::sorts::try_mixed(file, seed, &mut own);
    try_loop(file, seed, &mut own);
    take_made(&own, tally);
}

// Sort of a file of the most rows, most of them gates, with its nodes in any order.
fn try_gates(seed: &mut u64, tally: &mut [u64]) {
    let mut file = rooms::long_zeros();
    let mut mixed = rooms::long_zeros();
    let mut own = trial_tally::tally::fresh();
    let size = trial_netlists::netlists::put_netlist(&mut file, seed, style_of(32200, 32256));
    trial_mixing::put_shuffled(first(&file, size), seed, &mut mixed);
    trial_operations::sorts::try_sort(first(&mixed, size), seed, &mut own);
    take_made(&own, tally);
}

fn try_length(blocks: usize, seed: &mut u64, tally: &mut [u64]) {
    let mut file = rooms::long_zeros();
    let rows = rows_in(seed, blocks);
    let size = put_long(&mut file, seed, rows);
    try_questions(first(&file, size), tally);
    try_made(first(&file, size), *seed, tally);
}

fn try_lengths(seed: &mut u64, tally: &mut [u64]) {
    for i in 0..LENGTHS {
        try_length(blocks_of(i), seed, tally);
    }
}

// ---- heads

// The two bytes of a head that are its block's number: one bit of the first or the second is changed, or they change places. Done twice it is undone.
fn change_number(file: &mut [u8], block: usize, what: usize) {
    let start = 512 * (block % MOST_BLOCKS);
    let low = get(file, start + 1);
    let high = get(file, start + 3);
    let second = match what {
        0 => low ^ 1,
        1 => low,
        _ => high,
    };
    let fourth = match what {
        0 => high,
        1 => high ^ 1,
        _ => low,
    };
    put(file, start + 1, second);
    put(file, start + 3, fourth);
    seal(file, block);
}

fn try_head(file: &mut [u8], block: usize, what: usize, tally: &mut [u64]) {
    change_number(file, block, what);
    let _ = try_check(file, trial_tally::tally::HEADS, tally);
    change_number(file, block, what);
}

// The head of each block, in three ways.
fn try_heads(file: &mut [u8], tally: &mut [u64]) {
    for block in 0..file.len() / 512 {
        try_head(file, block, 0, tally);
        try_head(file, block, 1, tally);
        try_head(file, block, 2, tally);
    }
}

// ---- blocks

fn exchange_bytes(file: &mut [u8], x: usize, y: usize) {
    let first = get(file, x);
    let second = get(file, y);
    put(file, x, second);
    put(file, y, first);
}

// Two blocks change places.
fn exchange(file: &mut [u8], x: usize, y: usize) {
    let first = 512 * (x % MOST_BLOCKS);
    let second = 512 * (y % MOST_BLOCKS);
    for i in 0..512 {
        exchange_bytes(file, plus(first, i), plus(second, i));
    }
}

fn try_exchange(file: &mut [u8], x: usize, y: usize, tally: &mut [u64]) {
    exchange(file, x, y);
    let _ = try_check(file, trial_tally::tally::EXCHANGES, tally);
    exchange(file, x, y);
}

// How many blocks have one that stands so many later.
fn pairs_of(blocks: usize, apart: usize) -> usize {
    blocks.saturating_sub(apart)
}

// Each block with the one that stands so many later.
fn try_exchanges(file: &mut [u8], apart: usize, tally: &mut [u64]) {
    for x in 0..pairs_of(file.len() / 512, apart) {
        try_exchange(file, x, plus(x, apart), tally);
    }
}

// A file of the most blocks, with heads changed, and with blocks that are neighbours or whose numbers differ in byte 3 alone exchanged.
fn try_damaged(seed: &mut u64, tally: &mut [u64]) {
    let mut all = rooms::long_zeros();
    let rows = rows_in(seed, MOST_BLOCKS);
    let size = put_long(&mut all, seed, rows).min(all.len());
    let file = &mut all[..size];
    try_heads(file, tally);
    try_exchanges(file, 256, tally);
    try_exchanges(file, 1, tally);
}

// ---- work

fn rows_of_file(i: usize) -> usize {
    match i {
        0 => 8063,
        1 => 8064,
        2 => 8065,
        _ => 32256,
    }
}

// Each length that is enough for some rows, and a byte less.
fn work_of(i: usize) -> usize {
    match i {
        0 => 16383,
        1 => 16384,
        2 => 65535,
        _ => 65536,
    }
}

// Run by the reference, in memories that are filled alike, and of which as much is lent; what is left in them is compared.
fn run_again(
    file: &[u8],
    choices: &[u8],
    inputs: &[u8],
    work_end: usize,
    shown: &[u8],
    work: &[u8],
    tally: &mut [u64],
) -> Result<(), Refusal> {
    let mut expected = rooms::short_filled();
    let mut cleared = rooms::short_filled();
    let used = work_end.min(cleared.len());
    let right = reference_run::running::run(
        file,
        STEPS,
        choices,
        inputs,
        &mut expected,
        &mut cleared[..used],
    );
    hold(
        tally,
        shown == expected.as_slice(),
        trial_tally::tally::RUN_RESULTS,
    );
    hold(
        tally,
        work == cleared.as_slice(),
        trial_tally::tally::RUN_WORKS,
    );
    right
}

// What both answered is counted and compared.
fn compare_runs(answer: Result<(), Refusal>, right: Result<(), Refusal>, tally: &mut [u64]) {
    add(
        tally,
        plus(trial_tally::tally::WORK_RUNS, number_of(right) as usize),
        1,
    );
    hold(tally, answer == right, trial_tally::tally::RUN_ANSWERS);
}

fn run_lent(file: &[u8], choices: &[u8], inputs: &[u8], work_lent: usize, tally: &mut [u64]) {
    let mut shown = rooms::short_filled();
    let mut work = rooms::short_filled();
    let end = work_lent.min(work.len());
    let steps = STEPS as u32;
    let answer = run::run(file, steps, choices, inputs, &mut shown, &mut work[..end]).map_err(
        |refusal| refused(refusal),
    );
    let right = run_again(file, choices, inputs, end, &shown, &work, tally);
    compare_runs(answer, right, tally);
}

// Run with this much work, on values by chance.
fn try_run(file: &[u8], work_lent: usize, seed: &mut u64, tally: &mut [u64]) {
    let mut values = rooms::long_zeros();
    let unknown = trial_runs::unknown_in(file);
    let each = count_kind(file, rows_of(file), 1);
    let size = plus(unknown, trial_runs::times(STEPS, each));
    put_values(&mut values, seed, size);
    let given = first(&values, size);
    run_lent(
        file,
        first(given, unknown),
        rest(given, unknown),
        work_lent,
        tally,
    );
}

fn try_sort(file: &[u8], work_lent: usize, tally: &mut [u64]) {
    let mut own = trial_tally::tally::fresh();
    trial_operations::sorts::try_work(file, work_lent, &mut own);
    trial_tally::tally::take(
        &own,
        trial_tally::tally::SORTS,
        24,
        tally,
        trial_tally::tally::WORK_SORTS,
    );
    trial_tally::tally::take_differences(&own, tally);
}

fn try_works(file: &[u8], seed: &mut u64, tally: &mut [u64]) {
    for i in 0..WORKS {
        try_run(file, work_of(i), seed, tally);
        try_sort(file, work_of(i), tally);
    }
}

fn try_rows(rows: usize, seed: &mut u64, tally: &mut [u64]) {
    let mut file = rooms::long_zeros();
    let size = put_long(&mut file, seed, rows);
    try_works(first(&file, size), seed, tally);
}

fn try_all_rows(seed: &mut u64, tally: &mut [u64]) {
    for i in 0..ROWS {
        try_rows(rows_of_file(i), seed, tally);
    }
}

pub fn try_all(tally: &mut [u64]) {
    let mut seed = SEED;
    try_lengths(&mut seed, tally);
    try_gates(&mut seed, tally);
    try_damaged(&mut seed, tally);
    try_all_rows(&mut seed, tally);
}
