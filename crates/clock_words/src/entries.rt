// The clock entries, packed.
ghost use Rattle.std.specs.Prelude.{◌≡◌, cond, ◌+◌, ◌<◌, ◌≤◌, eqb, length};
ghost use Rattle.std.proofs.lemmas.List.Edits.{sets};
ghost use Rattle.memory.specs.Fields.{byte_at};
ghost use Rattle.netlist.specs.Limits.{fold_work_bytes, fold_clock_entries};
ghost use Rattle.netlist.specs.FileFormat.{netlist_of};
ghost use Rattle.netlist.specs.WellFormed.{FoldableRows};
ghost use Rattle.blockfile.specs.Ready.{Ready};
ghost use Rattle.fold_memory.specs.WorkMap.{known_offset, entry_offset};
ghost use Rattle.clock_words.specs.EntryStage.{entry_bytes, EntryReady, entry_put, KnownRegisters, EntryPart};

use fold_memory::{ENTRIES, KNOWN};

// Puts entry e.
fn put_entry(work: &mut [u8], e: usize, label: u32, period: u8, word: u8)
    requires { (e < fold_clock_entries) × (fold_work_bytes ≤ length work.old) }
    ensures { work.new ≡ sets work.old (entry_offset e) (entry_bytes label period word) }
{
    let offset = ENTRIES + 8 * e;
    let at_period = offset + 2;
    let at_word = offset + 3;
    let at_ones = offset + 4;
    let ones = u8::count_ones(word);
    memory::write_u16(work, offset, label);
    work[at_period] = period;
    work[at_word] = word;
    memory::write_u32(work, at_ones, ones);
}

// Puts the row's entry as entry e, if its generator is used; answers the number of entries up to it.
fn entry_row(file: &[u8], rows: usize, row: usize, work: &mut [u8], e: usize) -> usize
    requires { EntryReady file.now rows work.old row e }
    ensures { (result ≡ e + cond (eqb (byte_at work.old (known_offset row)) 0) 0 1) × (work.new ≡ entry_put (netlist_of file.now) work.old row e) }
{
    let first = KNOWN + 2 * row;
    let second = first + 1;
    let period = work[first];
    let word = work[second];
    if period == 0 {
        return e;
    }
    let fields = blockfile::read_row(file, row);
    let label = fields.b as u32;
    put_entry(work, e, label, period, word);
    e + 1
}

// Puts one entry for each used generator, in row order; answers their number.
pub fn put_entries(file: &[u8], rows: usize, work: &mut [u8]) -> usize
    requires ready { Ready FoldableRows file.now rows }
    requires fold_work_bytes_in_bounds { (fold_work_bytes ≤ length work.old) × KnownRegisters (netlist_of file.now) work.old }
    ensures { EntryPart (netlist_of file.now) work.old work.new rows result }
{
    let mut e = 0;
    for i in 0..rows {
        e = entry_row(file, rows, i, work, e);
    }
    e
}
