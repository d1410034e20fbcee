// Sort by its rule as it is said: after each gate that is placed it looks again from the first row.
use reference_questions::{Refusal, said};
use reference_rows::bytes::{after, item, put_item};
use reference_rows::rows::{kind_at, put_row, row_at, rows_of, work_for};
use reference_writing::cone::{moved, named_by};

// ---- the order: a row that is placed has its new number and 1 more, another 0

// Whether the row is a gate that is not placed.
fn is_left(file: &[u8], numbers: &[u16], at: usize) -> bool {
    (3..=5).contains(&kind_at(file, at)) && item(numbers, at) == 0
}

// Whether the row is a gate that is not placed, and each gate that it names is.
fn is_ready(file: &[u8], numbers: &[u16], at: usize) -> bool {
    if !is_left(file, numbers, at) {
        return false;
    }
    let named = named_by(row_at(file, at));
    ![named.first, named.second, named.third]
        .iter()
        .any(|&node| is_left(file, numbers, node))
}

// The lowest gate that is ready.
fn lowest_ready(file: &[u8], rows: usize, numbers: &[u16]) -> Option<usize> {
    (0..rows).find(|&at| is_ready(file, numbers, at))
}

// The lowest gate that is not placed.
fn lowest_left(file: &[u8], rows: usize, numbers: &[u16]) -> Option<usize> {
    (0..rows).find(|&at| is_left(file, numbers, at))
}

// The row is placed after so many others; the answer is how many are placed then.
fn place(numbers: &mut [u16], at: usize, before: usize) -> usize {
    let count = after(before);
    put_item(numbers, at, (count % 65536) as u16);
    count
}

// The rows of kinds `least` to `most`, in row order.
fn place_kinds(
    file: &[u8],
    rows: usize,
    least: u8,
    most: u8,
    numbers: &mut [u16],
    before: usize,
) -> usize {
    let mut count = before;
    for at in 0..rows {
        if (least..=most).contains(&kind_at(file, at)) {
            count = place(numbers, at, count);
        }
    }
    count
}

fn place_gates(file: &[u8], rows: usize, numbers: &mut [u16], before: usize) -> usize {
    let mut count = before;
    for _ in 0..rows {
        let Some(at) = lowest_ready(file, rows, numbers) else {
            return count;
        };
        count = place(numbers, at, count);
    }
    count
}

fn place_all(file: &[u8], rows: usize, numbers: &mut [u16]) {
    let sources = place_kinds(file, rows, 0, 2, numbers, 0);
    let nodes = place_gates(file, rows, numbers, sources);
    place_kinds(file, rows, 6, 6, numbers, nodes);
}

// ---- the file

// Each row at its new place, its literals renumbered.
pub fn put_moved(file: &[u8], rows: usize, numbers: &[u16], res: &mut [u8]) {
    for at in 0..rows {
        let place = item(numbers, at).wrapping_sub(1);
        put_row(res, place.into(), moved(numbers, row_at(file, at)));
    }
}

// The sorted file of these rows, with nothing else asked; the answer is how many rows it has.
pub fn sort_rows(file: &[u8], rows: usize, res: &mut [u8]) -> Result<u32, Refusal> {
    let mut numbers = reference_rows::rooms::row_words();
    place_all(file, rows, &mut numbers);
    if let Some(row) = lowest_left(file, rows, &numbers) {
        return Err(said(22, row));
    }
    res.fill(0);
    put_moved(file, rows, &numbers, res);
    reference_writing::writer::close(res, rows);
    Ok((rows % 65536) as u32)
}

// Sort: on success the result starts with the sorted file and is zero after it, and the answer is how many rows it has; a refusal does not change it. Work is zero after both.
pub fn sort(file: &[u8], res: &mut [u8], work: &mut [u8]) -> Result<u32, Refusal> {
    work.fill(0);
    reference_questions::ask_file(file, true)?;
    let rows = rows_of(file);
    if res.len() < file.len() || work.len() < work_for(rows) {
        return Err(said(23, 0));
    }
    sort_rows(file, rows, res)
}
