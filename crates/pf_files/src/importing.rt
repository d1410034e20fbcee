// Import: an AIGER text, made a netlist file and kept.
ghost use Rattle.std.specs.Prelude.{◌≡◌, length};

use crate::aiger_causes::say_aiger_cause;
use c_answers::{PfRefusal, PfWritten};
use listing::rows::{MOST_ROWS, file_bytes};
use pf_words::calls::Call;
use pf_words::outcome::{
    CallRefusal, Outcome, done_with, fail_by_cause, say, say_where, tell_refusal,
};
use pf_words::rooms::result_room;
use pf_words::saving::save;
use text::bytes::first;
use text::out::one;
use text::streams::Streams;

// Room for each text whose rows fit a file: its header has at most 59 bytes, and each of 32,255 lines at most 33.
fn text_room() -> [u8; 1114112]
    ensures { 1114112 ≡ length result }
{
    [0; 1114112]
}

// Work for an import.
fn work_room() -> [u8; 196608]
    ensures { 196608 ≡ length result }
{
    [0; 196608]
}

// The file that stands in `result` is kept.
fn keep_imported(rt: &Call, written: PfWritten, res: &[u8], kept: &[u8]) -> Outcome {
    save(rt, kept, first(res, file_bytes(written.rows)))?;
    done_with(rt, b"imported # rows\n", one(written.rows as usize))
}

// The refusal is told.
fn refuse_import(rt: &impl Streams, source: &[u8], text: &[u8], written: PfWritten) -> CallRefusal {
    let refusal = PfRefusal {
        number: written.number,
        place: written.place,
    };
    let refused = tell_refusal(rt, refusal);
    say_aiger_cause(rt, source, text, refusal.number, refusal.place as usize);
    refused
}

// A longer text whose header counts more rows than a file has: whether its lines are right is not known.
fn fail_longer(rt: &impl Streams, source: &[u8], rows: usize) -> CallRefusal {
    say_where(rt, source, 0);
    say(
        rt,
        b"longer than 1114112 bytes, and its header counts # rows, a file has at most 32256\n",
        one(rows),
    );
    CallRefusal::Failed
}

// What came of the import of a text, or of the first bytes of a longer one. Then all answers hold for the whole of it, 24 if its rows fit a file: the lines of such a text are among these bytes.
fn tell_import(
    rt: &Call,
    source: &[u8],
    text: &[u8],
    longer: bool,
    kept: &[u8],
    written: PfWritten,
    res: &[u8],
) -> Outcome {
    if written.number == 0 {
        return keep_imported(rt, written, res, kept);
    }
    let rows = aiger_faults::count_rows(text);
    if longer && written.number == 24 && MOST_ROWS < rows {
        return Err(fail_longer(rt, source, rows));
    }
    Err(refuse_import(rt, source, text, written))
}

// The text's file, in lent memory.
fn import_text(rt: &Call, source: &[u8], text: &[u8], longer: bool, kept: &[u8]) -> Outcome {
    let mut result = result_room();
    let mut work = work_room();
    let written = phasefold::c_import::pf_import(text, &mut result, &mut work);
    tell_import(rt, source, text, longer, kept, written, &result)
}

// The text is read.
fn import_from(rt: &Call, source: &[u8], kept: &[u8], room: &mut [u8]) -> Outcome {
    match text::files::load(&rt.host, source, room) {
        Ok(loaded) => import_text(rt, source, first(room, loaded.size), loaded.longer, kept),
        Err(cause) => Err(fail_by_cause(rt, source, cause)),
    }
}

// A netlist file at `kept` from the AIGER text in the file `source`.
pub fn import(rt: &Call, source: &[u8], kept: &[u8]) -> Outcome {
    let mut room = text_room();
    import_from(rt, source, kept, &mut room)
}
