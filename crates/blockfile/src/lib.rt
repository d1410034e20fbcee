// The rows of a netlist file: where they stand, their fields read and written, and their literals renumbered.
#![tactic(auto)]

ghost use Rattle.std.specs.Prelude.{◌≡◌, cond, ◌+◌, ◌*◌, ◌^◌, ◌<◌, ◌≤◌, length, ltb};
ghost use Rattle.std.proofs.lemmas.List.Edits.{sets};
ghost use Rattle.memory.specs.Fields.{u16_at};
ghost use Rattle.netlist.specs.Limits.{most_rows};
ghost use Rattle.netlist.specs.FileFormat.{row_offset, read_fields, field_bytes, blocks_for};
ghost use Rattle.blockfile.specs.RowCode.{fields_in, fields_from, Small};
ghost use Rattle.blockfile.specs.Renumbering.{literal_count, renumber_fields, renumber_in, HasSlots};

pub mod append;
pub mod count;

// The file: where its first row stands, and the sizes of a row and of a block.
pub const FIRST_ROW: usize = 4;

pub const ROW_BYTES: usize = 8;

pub const BLOCK_ROWS: usize = 63;

pub const BLOCK_BYTES: usize = 512;

// A row's number has 15 bits, since a literal has 16.
const ROW_NUMBERS: usize = 32768;

// A row's fields, as its eight bytes have them.
#[derive(Clone, Copy)]
pub struct Fields {
    pub kind: u8,
    pub reset: u8,
    pub a: usize,
    pub b: usize,
    pub c: usize,
}

// The byte at which a row starts: 8 bytes for each row before it, and 8 more for each block. The remainder is the row itself: it shows the compiler that the number has 15 bits, and such a number is divided in fewer instructions.
pub fn row_offset(row: usize) -> usize
    requires { row < most_rows }
    ensures { result ≡ row_offset row }
{
    let block = row % ROW_NUMBERS / BLOCK_ROWS;
    row * 8 + block * 8 + 4
}

// The bytes of a file with this many rows.
pub fn file_bytes(rows: u32) -> usize
    ensures { result ≡ 512 * blocks_for rows }
{
    BLOCK_BYTES * (rows as usize).div_ceil(BLOCK_ROWS)
}

// The field of two bytes at `offset`.
pub fn field_at(file: &[u8], offset: usize) -> usize
    requires { offset + 2 ≤ length file.now }
    ensures { (result ≡ u16_at file.now offset) × (result < 2 ^ 16) }
{
    memory::read_u16(file, offset) as usize
}

// The fields in the eight bytes from `offset` on.
pub fn read_at(file: &[u8], offset: usize) -> Fields
    requires { offset + 8 ≤ length file.now }
    ensures { (fields_in result ≡ fields_from file.now offset) × Small result }
{
    let second = offset + 1;
    let at_a = offset + 2;
    let at_b = offset + 4;
    let at_c = offset + 6;
    let kind = file[offset];
    let reset = file[second];
    let a = field_at(file, at_a);
    let b = field_at(file, at_b);
    let c = field_at(file, at_c);
    Fields {
        kind,
        reset,
        a,
        b,
        c,
    }
}

pub fn read_row(file: &[u8], row: usize) -> Fields
    requires { (row < most_rows) × (row_offset row + 8 ≤ length file.now) }
    ensures { (fields_in result ≡ read_fields file.now row) × Small result }
{
    let offset = row_offset(row);
    read_at(file, offset)
}

pub fn write_row(buffer: &mut [u8], row: usize, fields: Fields)
    requires row_lt_most_rows { (row < most_rows) × (row_offset row + 8 ≤ length buffer.old) }
    requires small { Small fields }
    ensures { buffer.new ≡ sets buffer.old (row_offset row) (field_bytes (fields_in fields)) }
{
    let offset = row_offset(row);
    let second = offset + 1;
    let at_a = offset + 2;
    let at_b = offset + 4;
    let at_c = offset + 6;
    buffer[offset] = fields.kind;
    buffer[second] = fields.reset;
    memory::write_u16(buffer, at_a, fields.a as u32);
    memory::write_u16(buffer, at_b, fields.b as u32);
    memory::write_u16(buffer, at_c, fields.c as u32);
}

// How many literals a row of this kind has: its first fields.
pub fn literal_count(kind: u8) -> usize
    ensures { (result ≡ literal_count kind) × (result ≤ 3) }
{
    match kind {
        0 => 0,
        1 => 0,
        2 => 1,
        3 => 2,
        4 => 2,
        5 => 3,
        6 => 1,
        7..=255 => 0,
    }
}

// The literal with its row's new number, which is in the low 15 bits of the row's slot. Of `count` slots each literal has one, since its row is taken modulo `count`.
pub fn renumber(slots: &[u8], count: usize, literal: usize) -> usize
    requires { HasSlots slots.now count × (literal < 2 ^ 16) }
    ensures { (result ≡ renumber_in slots.now count literal) × (result < 2 ^ 16) }
{
    let row = literal / 2 % count;
    let number = memory::slot_at(slots, row) % ROW_NUMBERS;
    2 * number + literal % 2
}

// Field number `index` of a row: renumbered if it is one of the row's literals.
fn renumber_field(slots: &[u8], count: usize, field: usize, index: usize, literals: usize) -> usize
    requires { HasSlots slots.now count × (field < 2 ^ 16) }
    ensures { (result ≡ cond (ltb index literals) (renumber_in slots.now count field) field) × (result < 2 ^ 16) }
{
    if index < literals {
        renumber(slots, count, field)
    } else {
        field
    }
}

pub fn renumber_row(slots: &[u8], count: usize, row: Fields) -> Fields
    requires { HasSlots slots.now count × Small row }
    ensures { (fields_in result ≡ renumber_fields (renumber_in slots.now count) (fields_in row)) × Small result }
{
    let literals = literal_count(row.kind);
    let a = renumber_field(slots, count, row.a, 0, literals);
    let b = renumber_field(slots, count, row.b, 1, literals);
    let c = renumber_field(slots, count, row.c, 2, literals);
    Fields {
        kind: row.kind,
        reset: row.reset,
        a,
        b,
        c,
    }
}
