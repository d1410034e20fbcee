// Image literals of every row in every phase, and the rows made for them.
use reference_lasso::clocks::power;
use reference_rows::bytes::{item, put_item};
use reference_rows::rows::{Row, node_of, row_at};
use reference_writing::made::{Made, inverse, make, spared};

// Where the image of a row in a phase stands.
fn slot(phase: usize, row: usize) -> usize {
    8 * (row % 1008) + phase % 8
}

fn image(images: &[u16], phase: usize, literal: u16) -> u16 {
    let whole = item(images, slot(phase, node_of(literal)));
    if literal % 2 == 0 {
        whole
    } else {
        inverse(whole)
    }
}

fn phase_field(phase: usize) -> u16 {
    (phase % 8) as u16
}

fn make_input(made: &mut [u16], rows: usize, row: Row, phase: usize) -> Made {
    let new = Row {
        kind: 1,
        reset: 0,
        a: row.a,
        b: phase_field(phase),
        c: 0,
    };
    make(made, rows, new)
}

// Its next value is set once all phases are made.
fn make_register(made: &mut [u16], rows: usize, row: Row) -> Made {
    let new = Row {
        kind: 2,
        reset: row.reset,
        a: 0,
        b: row.b,
        c: 0,
    };
    make(made, rows, new)
}

fn register_image(
    made: &mut [u16],
    rows: usize,
    row: Row,
    clock: u16,
    phase: usize,
    images: &[u16],
) -> Made {
    if clock != 0 {
        let bit = clock / power(phase) % 2;
        return spared(bit, rows);
    }
    if phase == 0 {
        return make_register(made, rows, row);
    }
    spared(image(images, phase - 1, row.a), rows)
}

fn gate_image(made: &mut [u16], rows: usize, row: Row, phase: usize, images: &[u16]) -> Made {
    let x = image(images, phase, row.a);
    let y = image(images, phase, row.b);
    let z = image(images, phase, row.c);
    match row.kind {
        5 => reference_writing::made::make_mux(made, rows, x, y, z),
        4 => reference_writing::made::make_xor(made, rows, x, y),
        _ => reference_writing::made::make_and(made, rows, x, y),
    }
}

fn row_image(
    made: &mut [u16],
    rows: usize,
    row: Row,
    clock: u16,
    phase: usize,
    images: &[u16],
) -> Made {
    match row.kind {
        1 => make_input(made, rows, row, phase),
        2 => register_image(made, rows, row, clock, phase, images),
        3 | 4 | 5 => gate_image(made, rows, row, phase, images),
        _ => spared(0, rows),
    }
}

// All rows in one phase; the answer is how many rows there are then.
fn put_phase(
    file: &[u8],
    count: usize,
    fixed: &[u16],
    phase: usize,
    images: &mut [u16],
    made: &mut [u16],
    rows: usize,
) -> usize {
    let mut sofar = rows;
    for at in 0..count {
        let row = row_at(file, at);
        let clock = item(fixed, at);
        let new = row_image(made, sofar, row, clock, phase, images);
        put_item(images, slot(phase, at), new.literal);
        sofar = new.rows;
    }
    sofar
}

// All phases; row 0 is there from the start.
fn put_phases(
    file: &[u8],
    count: usize,
    fixed: &[u16],
    phases: usize,
    images: &mut [u16],
    made: &mut [u16],
) -> usize {
    let mut sofar = 1;
    for phase in 0..phases {
        sofar = put_phase(file, count, fixed, phase, images, made, sofar);
    }
    sofar
}

// The next value of a register that was made anew.
fn put_next(row: Row, new: u16, next: u16, made: &mut [u16]) {
    let register = Row {
        kind: 2,
        reset: row.reset,
        a: next,
        b: row.b,
        c: 0,
    };
    reference_writing::made::put_made(made, node_of(new), register);
}

// A row that is no register, or whose register is known, has none.
fn put_row_next(row: Row, clock: u16, new: u16, next: u16, made: &mut [u16]) {
    if row.kind == 2 && clock == 0 {
        put_next(row, new, next, made);
    }
}

// The next values of the new registers.
fn put_nexts(
    file: &[u8],
    count: usize,
    fixed: &[u16],
    phases: usize,
    images: &[u16],
    made: &mut [u16],
) {
    let last = phases.wrapping_sub(1);
    for at in 0..count {
        let row = row_at(file, at);
        let new = item(images, slot(0, at));
        let next = image(images, last, row.a);
        put_row_next(row, item(fixed, at), new, next, made);
    }
}

// A row that is no output makes none.
fn put_output(made: &mut [u16], rows: usize, row: Row, phase: usize, literal: u16) -> usize {
    if row.kind != 6 {
        return rows;
    }
    let output = Row {
        kind: 6,
        reset: 0,
        a: literal,
        b: row.b,
        c: phase_field(phase),
    };
    make(made, rows, output).rows
}

// The outputs of one phase.
fn put_outputs(
    file: &[u8],
    count: usize,
    phase: usize,
    images: &[u16],
    made: &mut [u16],
    rows: usize,
) -> usize {
    let mut sofar = rows;
    for at in 0..count {
        let row = row_at(file, at);
        let literal = image(images, phase, row.a);
        sofar = put_output(made, sofar, row, phase, literal);
    }
    sofar
}

fn put_all_outputs(
    file: &[u8],
    count: usize,
    phases: usize,
    images: &[u16],
    made: &mut [u16],
    rows: usize,
) -> usize {
    let mut sofar = rows;
    for phase in 0..phases {
        sofar = put_outputs(file, count, phase, images, made, sofar);
    }
    sofar
}

// Every row that is made, in order; the answer is how many.
pub fn unroll(
    file: &[u8],
    count: usize,
    fixed: &[u16],
    phases: usize,
    images: &mut [u16],
    made: &mut [u16],
) -> usize {
    let nodes = put_phases(file, count, fixed, phases, images, made);
    put_nexts(file, count, fixed, phases, images, made);
    put_all_outputs(file, count, phases, images, made, nodes)
}
