// Question 8: whether a row's name is new, by marks of the names that are taken.
#![tactic(auto)]

ghost use Rattle.std.specs.Prelude.{◌≡◌, ◌+◌, ◌*◌, ◌<◌, length, eqb};
ghost use Rattle.netlist.specs.Rows.{row_at, has_name};
ghost use Rattle.netlist.specs.FileFormat.{netlist_of};
ghost use Rattle.questions.specs.Questions.{label_is_new};
ghost use Rattle.blockfile.specs.Ready.{HasRows};
ghost use Rattle.row_questions.specs.Slots.{all_slots, slot_of};
ghost use Rattle.name_marks.specs.Marks.{bit_of_slot, taken_bit, with_bit, NamesMarked};

// The marks have a bit for each slot; those of a file of few rows are few bits, which are cleared sooner.
pub const MARK_BYTES: usize = row_questions::ALL_SLOTS / 8;

const FEW_BITS: usize = 8192;

pub const FEW_MARK_BYTES: usize = FEW_BITS / 8;

// The bit of a name's slot; if bits are few, slots share them.
fn bit_of(few: bool, slot: usize) -> usize
    requires { slot < all_slots }
    ensures { result ≡ bit_of_slot few slot }
{
    if few {
        let apart = slot / row_questions::LABELS * 352;
        let moved = slot + apart;
        moved % FEW_BITS
    } else {
        slot
    }
}

// Whether the bit is free; it is set afterwards.
fn mark_new(marks: &mut [u8], bit: usize) -> bool
    requires { bit < 8 * length marks.old }
    ensures { (result ≡ eqb (taken_bit marks.old bit) 0) × (marks.new ≡ with_bit marks.old bit) }
{
    let at = bit / 8;
    let shift = bit % 8;
    let byte = marks[at];
    let mark = 1u8 << shift;
    marks[at] = byte | mark;
    (byte >> shift) % 2 == 0
}

// Question 8 by comparison with each earlier row.
fn name_is_new(file: &[u8], row: usize) -> bool
    requires { HasRows file.now (length (netlist_of file.now)) × (row < length (netlist_of file.now)) }
    ensures { result ≡ label_is_new (netlist_of file.now) row }
{
    let here = blockfile::read_row(file, row);
    for earlier in 0..row {
        let fields = blockfile::read_row(file, earlier);
        if row_questions::same_name(here, fields) {
            return false;
        }
    }
    true
}

// Question 8: a name whose bit is free is new; one whose bit is taken is compared with the earlier rows. Unless bits are few, different names have different bits, so only a repeated name is compared, and Check ends with it.
pub fn label_is_new(
    file: &[u8],
    row: usize,
    named: bool,
    slot: usize,
    few: bool,
    marks: &mut [u8],
) -> bool
    requires has_rows { HasRows file.now (length (netlist_of file.now)) × (row < length (netlist_of file.now)) }
    requires named_value { (named ≡ has_name (row_at (netlist_of file.now) row)) × ((slot ≡ slot_of (row_at (netlist_of file.now) row)) × (slot < all_slots)) }
    requires names_marked { NamesMarked few (netlist_of file.now) row marks.old }
    ensures { (result ≡ label_is_new (netlist_of file.now) row) × NamesMarked few (netlist_of file.now) (row + 1) marks.new }
{
    if named {
        let bit = bit_of(few, slot);
        if mark_new(&mut *marks, bit) {
            true
        } else {
            name_is_new(file, row)
        }
    } else {
        true
    }
}
