// The states of the three-valued run in the lent memory, two bits a register, and the step from one to the next.
#![tactic(auto)]

ghost use Rattle.std.specs.Prelude.{◌≡◌, cond, ◌+◌, ◌-◌, ◌*◌, ◌<◌, ◌≤◌, ◌/◌, ◌%◌, ◌^◌, eqb, length, set};
ghost use Rattle.std.proofs.lemmas.List.Edits.{sets};
ghost use Rattle.memory.specs.Lists.{count_if};
ghost use Rattle.memory.specs.Fields.{byte_at, u16_bytes};
ghost use Rattle.memory.specs.Frames.{KeptOutside};
ghost use Rattle.ternary.specs.Ternary.{and3, xor3, mux3, code_of};
ghost use Rattle.netlist.specs.Limits.{most_original_rows, most_original_registers, last_state};
ghost use Rattle.netlist.specs.Rows.{is_register};
ghost use Rattle.netlist.specs.FileFormat.{row_offset, netlist_of};
ghost use Rattle.netlist.specs.WellFormed.{FoldableRows};
ghost use Rattle.blockfile.specs.RowCode.{if_known};
ghost use Rattle.blockfile.specs.BlockRows.{BlockRows};
ghost use Rattle.blockfile.specs.Ready.{Ready};
ghost use Rattle.fold_memory.specs.WorkMap.{value_offset, next_offset, state_bytes, state_offset};
ghost use Rattle.ternary_step.specs.StateMap.{code_at, Packed, registers_before, Coded, literal_in, RowToEvaluate, row_in, no_code, AtRow, Evaluated, Started, shown_codes, NextReady, Searched};

use blockfile::{BLOCK_BYTES, BLOCK_ROWS, FIRST_ROW, ROW_BYTES};
use fold_memory::{NEXTS, STATES, VALUES};

// A byte that is no code: the answer for a row of an unknown kind, which no accepted file has.
const NO_CODE: u8 = 3;

// Register j of the state that starts at `base`.
pub fn register_code(work: &[u8], base: usize, j: usize) -> u8
    requires { (j < most_original_registers) × (base + state_bytes ≤ length work.now) }
    ensures { (result ≡ code_at work.now base j) × (result < 4) }
{
    let offset = base + j / 4;
    let shift = j % 4 * 2;
    (work[offset] >> shift) % 4
}

// ---- a row's value

// A node's value, or its complement.
pub fn literal_value(work: &[u8], literal: usize) -> u8
    requires { (literal / 2 < most_original_rows) × Coded work.now }
    ensures { (result ≡ code_of (literal_in work.now literal)) × (result < 3) }
{
    let offset = VALUES + literal / 2;
    let value = work[offset];
    let inverted = (literal % 2) as u8;
    ternary::complement_code(inverted, value)
}

// The second operand is read first: so compiled, the step was measured to be quicker (docs/DECISIONS.md).
fn and_value(work: &[u8], a: usize, b: usize) -> u8
    requires { (a / 2 < most_original_rows) × ((b / 2 < most_original_rows) × Coded work.now) }
    ensures { result ≡ code_of (and3 (literal_in work.now a) (literal_in work.now b)) }
{
    let y = literal_value(work, b);
    let x = literal_value(work, a);
    ternary::and_code(x, y)
}

fn xor_value(work: &[u8], a: usize, b: usize) -> u8
    requires { (a / 2 < most_original_rows) × ((b / 2 < most_original_rows) × Coded work.now) }
    ensures { result ≡ code_of (xor3 (literal_in work.now a) (literal_in work.now b)) }
{
    let x = literal_value(work, a);
    let y = literal_value(work, b);
    ternary::xor_code(x, y)
}

fn mux_value(work: &[u8], a: usize, b: usize, c: usize) -> u8
    requires { (a / 2 < most_original_rows) × ((b / 2 < most_original_rows) × ((c / 2 < most_original_rows) × Coded work.now)) }
    ensures { result ≡ code_of (mux3 (literal_in work.now a) (literal_in work.now b) (literal_in work.now c)) }
{
    let x = literal_value(work, a);
    let y = literal_value(work, b);
    let z = literal_value(work, c);
    ternary::mux_code(x, y, z)
}

// The value of a row, no code if its kind is unknown; a register is register j of the state that starts at `base`.
fn row_value(work: &[u8], row: blockfile::Fields, base: usize, j: usize) -> u8
    requires { RowToEvaluate work.now row base j }
    ensures { result ≡ if_known row.kind (code_of (row_in work.now row base j)) no_code }
{
    match row.kind {
        0 => 0,
        1 => 2,
        2 => register_code(work, base, j),
        3 => and_value(work, row.a, row.b),
        4 => xor_value(work, row.a, row.b),
        5 => mux_value(work, row.a, row.b, row.c),
        6 => literal_value(work, row.a),
        // By `return`: without it a row takes an instruction more.
        7..=255 => return NO_CODE,
    }
}

// ---- a step

// j, and one more if the kind is a register's.
pub fn count_register(kind: u8, j: usize) -> usize
    requires { j < 2 ^ 32 }
    ensures { result ≡ j + cond (eqb kind 2) 1 0 }
{
    if kind == 2 {
        return j + 1;
    }
    j
}

// Puts the value of the row, which stands at `offset`, in step t; answers the number of registers up to it.
fn evaluate_row(
    file: &[u8],
    rows: usize,
    row: usize,
    offset: usize,
    j: usize,
    work: &mut [u8],
    t: usize,
) -> usize
    requires at_row { AtRow file.now rows row j × (offset ≡ row_offset row) }
    requires t_lt_last_state { (t < last_state) × Evaluated (netlist_of file.now) work.old t row }
    ensures { (result ≡ registers_before (netlist_of file.now) (row + 1)) × (KeptOutside (value_offset 0) (value_offset most_original_rows) work.old work.new × Evaluated (netlist_of file.now) work.new t (row + 1)) }
{
    let fields = blockfile::read_at(file, offset);
    let base = fold_memory::state_offset(t);
    let value = row_value(work, fields, base, j);
    let at = VALUES + row;
    work[at] = value;
    count_register(fields.kind, j)
}

// Puts the values of the rows from `start` to `stop` - 1 of a block, which stand from `first` on, in step t; answers the number of registers up to them.
fn evaluate_block(
    file: &[u8],
    rows: usize,
    start: usize,
    stop: usize,
    first: usize,
    before: usize,
    work: &mut [u8],
    t: usize,
) -> usize
    requires ready { Ready FoldableRows file.now rows × (BlockRows rows start stop first × (before ≡ registers_before (netlist_of file.now) start)) }
    requires t_lt_last_state { (t < last_state) × Evaluated (netlist_of file.now) work.old t start }
    ensures { (result ≡ registers_before (netlist_of file.now) stop) × (KeptOutside (value_offset 0) (value_offset most_original_rows) work.old work.new × Evaluated (netlist_of file.now) work.new t stop) }
{
    let mut offset = first;
    let mut j = before;
    for i in start..stop {
        j = evaluate_row(file, rows, i, offset, j, work, t);
        offset += ROW_BYTES;
    }
    j
}

// Puts the values of all rows in step t, from state t: those of the whole blocks, then those of the rest.
fn evaluate(file: &[u8], rows: usize, work: &mut [u8], t: usize)
    requires ready { Ready FoldableRows file.now rows }
    requires t_lt_last_state { (t < last_state) × Evaluated (netlist_of file.now) work.old t 0 }
    ensures { KeptOutside (value_offset 0) (value_offset most_original_rows) work.old work.new × Evaluated (netlist_of file.now) work.new t rows }
{
    let blocks = rows / BLOCK_ROWS;
    let mut j = 0;
    for block in 0..blocks {
        let start = BLOCK_ROWS * block;
        let first = FIRST_ROW + BLOCK_BYTES * block;
        j = evaluate_block(file, rows, start, start + BLOCK_ROWS, first, j, work, t);
    }
    let start = BLOCK_ROWS * blocks;
    let first = FIRST_ROW + BLOCK_BYTES * blocks;
    evaluate_block(file, rows, start, rows, first, j, work, t);
}

// ---- the first state, and the registers' next-value literals

// Puts a code in as register j of the state that starts at `base`, behind the registers before it.
fn put_code(work: &mut [u8], base: usize, j: usize, code: u8)
    requires j_lt_most_original_registers { (j < most_original_registers) × (base + state_bytes ≤ length work.old) }
    requires code_bound { (code < 3) × (byte_at work.old (base + j / 4) < 2 ^ (j % 4 * 2)) }
    ensures { work.new ≡ set work.old (base + j / 4) (byte_at work.old (base + j / 4) + code * 2 ^ (j % 4 * 2)) }
{
    let offset = base + j / 4;
    let shift = j % 4 * 2;
    let before = work[offset];
    work[offset] = before + (code << shift);
}

// Puts register j's next-value literal in the list.
fn list_next(work: &mut [u8], j: usize, next: usize)
    requires { (j < most_original_registers) × ((next < 2 ^ 16) × (state_offset 0 ≤ length work.old)) }
    ensures { work.new ≡ sets work.old (next_offset j) (u16_bytes next) }
{
    memory::write_u16(work, NEXTS + 2 * j, next as u32);
}

// Puts the row in, if it is a register, as register j of state 0, and lists its next-value literal; answers the number of registers up to it.
fn start_row(file: &[u8], rows: usize, row: usize, j: usize, work: &mut [u8]) -> usize
    requires at_row { AtRow file.now rows row j }
    requires started { Started (netlist_of file.now) work.old row }
    ensures { (result ≡ registers_before (netlist_of file.now) (row + 1)) × (KeptOutside (next_offset 0) (state_offset 1) work.old work.new × Started (netlist_of file.now) work.new (row + 1)) }
{
    let fields = blockfile::read_row(file, row);
    if fields.kind == 2 {
        put_code(work, STATES, j, fields.reset);
        list_next(work, j, fields.a);
        return j + 1;
    }
    j
}

// Puts state 0 and lists the registers' next-value literals; answers the number of registers.
pub fn start(file: &[u8], rows: usize, work: &mut [u8]) -> usize
    requires ready { Ready FoldableRows file.now rows }
    requires started { Started (netlist_of file.now) work.old 0 }
    ensures { (result ≡ count_if is_register (netlist_of file.now)) × (KeptOutside (next_offset 0) (state_offset 1) work.old work.new × Started (netlist_of file.now) work.new rows) }
{
    let mut j = 0;
    for i in 0..rows {
        j = start_row(file, rows, i, j, work);
    }
    j
}

// ---- from a state to the next

// Puts state m: what each of the n listed literals shows.
fn pack_next(work: &mut [u8], n: usize, m: usize)
    requires { NextReady work.old n m }
    ensures { KeptOutside (state_offset m) (state_offset m + state_bytes) work.old work.new × Packed work.new (state_offset m) (shown_codes work.old n) }
{
    let base = fold_memory::state_offset(m);
    for j in 0..n {
        let at = NEXTS + 2 * j;
        let next = blockfile::field_at(work, at);
        let code = literal_value(work, next);
        put_code(work, base, j, code);
    }
}

// Puts state m, from state m - 1; there are `registers` registers.
pub fn advance(file: &[u8], rows: usize, registers: usize, work: &mut [u8], m: usize)
    requires ready { Ready FoldableRows file.now rows × (registers ≡ count_if is_register (netlist_of file.now)) }
    requires le_m { (1 ≤ m) × ((m ≤ last_state) × ((state_offset (m + 1) ≤ length work.old) × Searched (netlist_of file.now) work.old m)) }
    ensures { KeptOutside (value_offset 0) (state_offset (m + 1)) work.old work.new × Searched (netlist_of file.now) work.new (m + 1) }
{
    let last = m - 1;
    evaluate(file, rows, work, last);
    pack_next(work, registers, m);
}
