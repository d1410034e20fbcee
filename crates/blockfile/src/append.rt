// A row behind those that stand in a buffer. By `append-one` (proofs/AppendLaws) it is `Appended`, if the fields are a row's.
ghost use Rattle.std.specs.Prelude.{◌≡◌, ◌+◌, ◌<◌, ◌≤◌, length};
ghost use Rattle.std.proofs.lemmas.List.Edits.{sets};
ghost use Rattle.netlist.specs.Limits.{most_rows};
ghost use Rattle.netlist.specs.FileFormat.{row_offset, field_bytes};
ghost use Rattle.blockfile.specs.RowCode.{fields_in, Small};

use crate::Fields;

// Appends a row to the `rows` rows in the buffer; answers how many there are then.
pub fn append_row(buffer: &mut [u8], rows: usize, fields: Fields) -> usize
    requires rows_lt_most_rows { (rows < most_rows) × (row_offset rows + 8 ≤ length buffer.old) }
    requires small { Small fields }
    ensures { (buffer.new ≡ sets buffer.old (row_offset rows) (field_bytes (fields_in fields))) × (result ≡ rows + 1) }
{
    crate::write_row(buffer, rows, fields);
    rows + 1
}
