// The designs that are tried. Each is put in a file of zeros, and the answer is the file's length.
use reference_rows::rows::{Row, put_row};

pub const DESIGNS: usize = 14;

// One more, for traces alone.
pub const TRACED: usize = 14;

// A row of a table has the digits of kind, reset, a, b and c: one, one, two, two and two of them. The scope paper's sample:
const SAMPLE: [u32; 8] = [
    0_0_00_00_00,
    1_0_00_00_00,
    2_0_05_00_00,
    2_0_10_01_00,
    2_0_12_02_00,
    5_0_04_02_06,
    5_0_04_08_06,
    6_0_08_00_00,
];

// A ring of three registers that hands 0, 1, 1 round, and its AND with an input.
const RING: [u32; 7] = [
    0_0_00_00_00,
    2_0_04_10_00,
    2_1_06_11_00,
    2_1_02_12_00,
    1_0_20_00_00,
    3_0_02_08_00,
    6_0_10_00_00,
];

// An X register that takes its inverse, and its XOR with a toggle.
const UNKNOWN: [u32; 5] = [
    0_0_00_00_00,
    2_2_03_07_00,
    2_0_05_08_00,
    4_0_02_04_00,
    6_0_06_00_00,
];

// A toggle with reset 1.
const TOGGLE: [u32; 3] = [0_0_00_00_00, 2_1_03_09_00, 6_0_02_00_00];

// An input on two clocks: a register takes it while a toggle is 1, and another takes that while a ring of three is 1.
const CLOCKED: [u32; 13] = [
    0_0_00_00_00,
    1_0_00_00_00,
    2_0_05_01_00,
    2_1_08_02_00,
    2_0_10_03_00,
    2_0_06_04_00,
    2_0_16_05_00,
    2_1_18_06_00,
    5_0_04_02_12,
    5_0_06_12_14,
    3_0_14_09_00,
    6_0_20_00_00,
    6_0_12_01_00,
];

// No registers.
const PLAIN: [u32; 7] = [
    0_0_00_00_00,
    1_0_00_00_00,
    1_0_01_00_00,
    4_0_02_04_00,
    3_0_07_02_00,
    6_0_08_00_00,
    6_0_06_01_00,
];

// A toggle that selects one of two inputs, its XOR with an X register, and another X register that nothing shows.
const PHASED: [u32; 9] = [
    0_0_00_00_00,
    1_0_09_00_00,
    1_0_02_00_00,
    2_0_07_00_00,
    2_2_08_05_00,
    2_2_10_01_00,
    5_0_06_02_04,
    4_0_10_12_00,
    6_0_14_00_00,
];

fn cells(kind: u8, reset: u8, a: u16, b: u16, c: u16) -> Row {
    Row {
        kind,
        reset,
        a,
        b,
        c,
    }
}

fn row_of(number: u32) -> Row {
    Row {
        kind: (number / 10000000 % 10) as u8,
        reset: (number / 1000000 % 10) as u8,
        a: (number / 10000 % 100) as u16,
        b: (number / 100 % 100) as u16,
        c: (number % 100) as u16,
    }
}

fn put_rows(file: &mut [u8], table: &[u32]) -> usize {
    for (row, &number) in table.iter().enumerate() {
        put_row(file, row, row_of(number));
    }
    reference_writing::writer::close(file, table.len())
}

// Bit `bit` of a counter, whose rows begin at 1: its register, its XOR with the carry, and the carry to the next bit.
fn put_bit(file: &mut [u8], bit: usize) {
    let at = 3 * (bit % 16) + 1;
    let own = (2 * at) as u16;
    let carry = if at == 1 { 1 } else { own - 2 };
    put_row(file, at, cells(2, 0, own + 2, own, 0));
    put_row(file, at + 1, cells(4, 0, own, carry, 0));
    put_row(file, at + 2, cells(3, 0, carry, own, 0));
}

// A counter from 0, its last bit as output.
fn put_counter(file: &mut [u8], bits: usize) -> usize {
    for bit in 0..bits {
        put_bit(file, bit);
    }
    let output = 3 * (bits % 16) + 1;
    let last = ((2 * output) as u16).wrapping_sub(6);
    put_row(file, output, cells(6, 0, last, 0, 0));
    reference_writing::writer::close(file, output + 1)
}

// As many toggles as Fold takes, every other one with reset 1.
fn put_toggles(file: &mut [u8]) -> usize {
    for at in 1..257 {
        let own = (2 * at) as u16;
        let reset = (at % 2) as u8;
        put_row(file, at, cells(2, reset, own + 1, own, 0));
    }
    put_row(file, 257, cells(6, 0, 2, 0, 0));
    reference_writing::writer::close(file, 258)
}

// A chain of so many rows: an input, ANDs of it with the inverse of the row before, and the last of them as output.
fn put_chain(file: &mut [u8], rows: usize) -> usize {
    let output = rows.wrapping_sub(1) % 32768;
    put_row(file, 1, cells(1, 0, 0, 0, 0));
    for at in 2..output {
        let own = (2 * (at % 32768)) as u16;
        let inverse = own.wrapping_sub(1);
        put_row(file, at, cells(3, 0, inverse, 2, 0));
    }
    let shown = ((2 * output) as u16).wrapping_sub(2);
    put_row(file, output, cells(6, 0, shown, 0, 0));
    reference_writing::writer::close(file, rows)
}

// Behind the others chains of as many rows as Fold takes, and of more, at last of as many as a file may have.
pub fn put_design(file: &mut [u8], design: usize) -> usize {
    match design {
        0 => put_rows(file, &SAMPLE),
        1 => put_rows(file, &RING),
        2 => put_rows(file, &UNKNOWN),
        3 => put_rows(file, &TOGGLE),
        4 => put_rows(file, &CLOCKED),
        5 => put_rows(file, &PLAIN),
        6 => put_counter(file, 8),
        7 => put_counter(file, 9),
        8 => put_toggles(file),
        9 => put_chain(file, 1008),
        10 => put_chain(file, 1009),
        11 => put_chain(file, 8064),
        12 => put_chain(file, 8065),
        13 => put_chain(file, 32256),
        _ => put_rows(file, &PHASED),
    }
}
