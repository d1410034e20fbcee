// The rows that are made, five words each, and the gates that are spared.
ghost use Rattle.std.specs.Prelude.{◌<◌};

use reference_rows::bytes::{after, item, put_item};
use reference_rows::rows::Row;

// A literal, and how many rows there are after it was made.
#[derive(Clone, Copy)]
pub struct Made {
    pub literal: u16,
    pub rows: usize,
}

// Where a row's words start.
fn base_of(row: usize) -> usize
    ensures { result < 40960 }
{
    5 * (row % 8192)
}

pub fn made_row(made: &[u16], row: usize) -> Row {
    let base = base_of(row);
    Row {
        kind: (item(made, base) % 256) as u8,
        reset: (item(made, base + 1) % 256) as u8,
        a: item(made, base + 2),
        b: item(made, base + 3),
        c: item(made, base + 4),
    }
}

pub fn put_made(made: &mut [u16], at: usize, row: Row) {
    let base = base_of(at);
    put_item(made, base, row.kind.into());
    put_item(made, base + 1, row.reset.into());
    put_item(made, base + 2, row.a);
    put_item(made, base + 3, row.b);
    put_item(made, base + 4, row.c);
}

pub fn make(made: &mut [u16], rows: usize, row: Row) -> Made {
    put_made(made, rows, row);
    Made {
        literal: (2 * (rows % 32768)) as u16,
        rows: after(rows),
    }
}

pub fn spared(literal: u16, rows: usize) -> Made {
    Made { literal, rows }
}

pub fn inverse(literal: u16) -> u16 {
    literal ^ 1
}

fn plain(literal: u16) -> u16 {
    literal - literal % 2
}

fn gate(kind: u8, a: u16, b: u16, c: u16) -> Row {
    Row {
        kind,
        reset: 0,
        a,
        b,
        c,
    }
}

// With the smaller literal first, a constant operand is the first.
pub fn make_and(made: &mut [u16], rows: usize, x: u16, y: u16) -> Made {
    let first = x.min(y);
    let second = x.max(y);
    if first == second {
        return spared(first, rows);
    }
    if first == 0 || inverse(first) == second {
        return spared(0, rows);
    }
    if first == 1 {
        return spared(second, rows);
    }
    make(made, rows, gate(3, first, second, 0))
}

// The signs are taken off first: what is left is an XOR of plain literals.
pub fn make_xor(made: &mut [u16], rows: usize, x: u16, y: u16) -> Made {
    let sign = (x % 2 + y % 2) % 2;
    let first = plain(x).min(plain(y));
    let second = plain(x).max(plain(y));
    if first == second {
        return spared(sign, rows);
    }
    if first == 0 {
        return spared(second ^ sign, rows);
    }
    let new = make(made, rows, gate(4, first, second, 0));
    Made {
        literal: new.literal ^ sign,
        rows: new.rows,
    }
}

pub fn make_mux(made: &mut [u16], rows: usize, selector: u16, high: u16, low: u16) -> Made {
    if high == low || selector == 0 {
        return spared(low, rows);
    }
    if selector == 1 {
        return spared(high, rows);
    }
    if selector % 2 == 1 {
        make(made, rows, gate(5, plain(selector), low, high))
    } else {
        make(made, rows, gate(5, selector, high, low))
    }
}
