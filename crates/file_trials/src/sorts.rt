// The line that tries Sort: its answer, what it writes and leaves, and questions 1 to 10, 22 and 23.
use crate::runs::RESULT_FILL;
use crate::tell::{Seen, Tally, seen_of};
use scripted_files::bytes::{all_from, size_at};
use sort_answers::SortRefusal;
use text::bytes::{first, get, rest};
use text::streams::Streams;

// Sort in buffers as long as the line says.
fn sort_lent(
    numbers: &[u32],
    file: &[u8],
    res: &mut [u8],
    work: &mut [u8],
) -> Result<u32, SortRefusal> {
    let netlist = first(file, size_at(numbers, 1));
    let result_end = size_at(numbers, 2).min(res.len());
    let work_end = size_at(numbers, 3).min(work.len());
    sort::sort(netlist, &mut res[..result_end], &mut work[..work_end])
}

// Whether the result begins with the file that is expected, is zero after it to its end, and is unchanged behind.
fn result_right(numbers: &[u32], expected: &[u8], res: &[u8]) -> bool {
    let size = size_at(numbers, 1);
    let end = size_at(numbers, 2);
    let sorted = first(res, size) == first(expected, size);
    let zeros = all_from(rest(first(res, end), size), 0, 0);
    let behind = all_from(rest(res, end), 0, RESULT_FILL);
    sorted && zeros && behind
}

// Order SIZE RESULT WORK is NUMBER PLACE ROWS; where it is done, the file that was kept is expected.
fn try_sort(
    rt: &impl Streams,
    tally: Tally,
    numbers: &[u32],
    file: &[u8],
    expected: &[u8],
    res: &mut [u8],
) -> Tally {
    let mut work = crate::runs::work_room();
    res.fill(RESULT_FILL);
    let answer = sort_lent(numbers, file, res, &mut work);
    let cleared = crate::runs::work_right(&work, size_at(numbers, 3));
    let seen = Seen(get(numbers, 5), get(numbers, 6));
    let left = match answer {
        Ok(rows) => rows == get(numbers, 7) && result_right(numbers, expected, res),
        Err(_) => all_from(res, 0, RESULT_FILL),
    };
    crate::tell::outcome(rt, tally, seen_of(answer), seen, left && cleared)
}

pub fn obey(
    rt: &impl Streams,
    letter: u8,
    numbers: &[u32],
    file: &[u8],
    kept: &[u8],
    res: &mut [u8],
    tally: Tally,
) -> Tally {
    match letter {
        b'O' => try_sort(rt, tally, numbers, file, kept, res),
        _ => tally,
    }
}
