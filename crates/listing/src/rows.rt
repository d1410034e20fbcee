// The rows of a netlist file as lines of text; a row is read wherever it is asked for, with zeros past the end.
ghost use Rattle.std.specs.Prelude.{◌≡◌, ◌*◌, ◌≤◌, length};

use blockfile::Fields;
pub use blockfile::file_bytes;
use text::bytes::{get, wide};
use text::out::{Out, put_filled};
use text::streams::Streams;

// The rows of the longest file.
pub const MOST_ROWS: usize = 32256;

// One byte more than a file may have: a longer one is seen, and refused with 1.
pub fn file_room() -> [u8; 262145]
    ensures { 262145 ≡ length result }
{
    [0; 262145]
}

// The number of the last block; 0 if there is no block.
pub fn last_block(file: &[u8]) -> usize
    ensures { 512 * result ≤ length file.now }
{
    (file.len() / 512).saturating_sub(1)
}

// How many rows it has, if its blocks are right: 63 in each block but the last.
pub fn row_count(file: &[u8]) -> usize {
    let last = last_block(file);
    let at = 512 * last + 2;
    63 * last + wide(get(file, at))
}

// The fields of a row.
pub fn fields_of(file: &[u8], row: usize) -> Fields {
    if row < MOST_ROWS {
        let offset = blockfile::row_offset(row);
        let end = offset + 8;
        if end <= file.len() {
            return blockfile::read_row(file, row);
        }
    }
    Fields {
        kind: 0,
        reset: 0,
        a: 0,
        b: 0,
        c: 0,
    }
}

// The line of a row: number, kind, reset, a, b, c.
pub fn put_row(rt: &impl Streams, buffer: &mut [u8], out: Out, file: &[u8], row: usize) -> Out {
    let fields = fields_of(file, row);
    let kind = wide(fields.kind);
    let reset = wide(fields.reset);
    let numbers = [row, kind, reset, fields.a, fields.b, fields.c];
    put_filled(rt, buffer, out, b"# # # # # #\n", numbers)
}

// The lines of the first `rows` rows.
pub fn put_rows(rt: &impl Streams, buffer: &mut [u8], out: Out, file: &[u8], rows: usize) -> Out {
    let mut now = out;
    for row in 0..rows {
        now = put_row(rt, buffer, now, file, row);
    }
    now
}
