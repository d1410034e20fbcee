// Sort: a file whose gates stand in any order, put in order and kept.
use c_answers::{PfRefusal, PfWritten};
use pf_causes::refuse;
use pf_words::calls::Call;
use pf_words::outcome::{Outcome, done_with};
use pf_words::rooms::{result_room, work_room};
use pf_words::saving::save;
use text::bytes::first;
use text::out::one;

// The sorted file, which is as long as the one given, is kept.
fn keep_sorted(rt: &Call, written: PfWritten, sorted: &[u8], kept: &[u8]) -> Outcome {
    save(rt, kept, sorted)?;
    done_with(rt, b"sorted # rows\n", one(written.rows as usize))
}

// The refusal that stands in an answer of Sort.
fn sort_refusal(written: PfWritten) -> PfRefusal {
    PfRefusal {
        number: written.number,
        place: written.place,
    }
}

// The sort in the lent memory.
fn sort_into(file: &[u8], res: &mut [u8]) -> PfWritten {
    let mut work = work_room();
    phasefold::c_sort::pf_sort(file, res, &mut work)
}

// The file sorted, and where the result is kept; or the refusal.
pub fn sort(rt: &Call, path: &[u8], file: &[u8], kept: &[u8]) -> Outcome {
    let mut result = result_room();
    let written = sort_into(file, &mut result);
    if written.number == 0 {
        keep_sorted(rt, written, first(&result, file.len()), kept)
    } else {
        Err(refuse(rt, path, 0, file, sort_refusal(written), b""))
    }
}
