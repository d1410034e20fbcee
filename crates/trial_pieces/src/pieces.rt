// Pieces that netlists are put together from. Each is put from row `at` on, and the answer is the row after it.
use crate::dice::{any_literal, chance, near_literal, plain, roll, roll_from, roll_u8};
use reference_rows::rows::{Row, kind_at, node_of, put_row, row_at};

pub fn cells(kind: u8, reset: u8, a: u16, b: u16, c: u16) -> Row {
    Row {
        kind,
        reset,
        a,
        b,
        c,
    }
}

pub fn plus(x: usize, y: usize) -> usize {
    x.wrapping_add(y)
}

// Labels differ from row to row, since 7 is odd, and none is its row's number.
pub fn label_of(row: usize) -> u16 {
    let number = row % 65536;
    ((7 * number + 3) % 65536) as u16
}

fn put_register(file: &mut [u8], at: usize, reset: u8, next: u16) {
    put_row(file, at, cells(2, reset, next, label_of(at), 0));
}

pub fn put_input(file: &mut [u8], at: usize) -> usize {
    put_row(file, at, cells(1, 0, label_of(at), 0, 0));
    plus(at, 1)
}

// An earlier literal: a near one or any.
fn earlier(seed: &mut u64, at: usize) -> u16 {
    let near = near_literal(seed, at);
    let any = any_literal(seed, at);
    if chance(seed, 2) { near } else { any }
}

pub fn put_gate(file: &mut [u8], seed: &mut u64, at: usize) -> usize {
    let kind = 3 + roll_u8(seed, 3) % 3;
    let a = earlier(seed, at);
    let b = earlier(seed, at);
    let c = earlier(seed, at);
    let third = if kind == 5 { c } else { 0 };
    put_row(file, at, cells(kind, 0, a, b, third));
    plus(at, 1)
}

// 0 or 1, and at times unknown.
fn any_reset(seed: &mut u64) -> u8 {
    let known = roll_u8(seed, 2) % 2;
    if chance(seed, 6) { 2 } else { known }
}

// A register whose next value is set when all nodes are there: until then field c is 1.
pub fn put_open_register(file: &mut [u8], seed: &mut u64, at: usize) -> usize {
    let reset = any_reset(seed);
    put_row(file, at, cells(2, reset, 0, label_of(at), 1));
    plus(at, 1)
}

// A register that takes its own inverse.
pub fn put_toggle(file: &mut [u8], seed: &mut u64, at: usize) -> usize {
    let reset = roll_u8(seed, 2) % 2;
    put_register(file, at, reset, plain(at) ^ 1);
    plus(at, 1)
}

// Registers that hand their values round, `count` of them; one starts high, or any do.
pub fn put_ring(file: &mut [u8], seed: &mut u64, at: usize, count: usize) -> usize {
    let hot = roll(seed, count);
    let mixed = chance(seed, 3);
    let end = plus(at, count);
    let mut before = end.wrapping_sub(1);
    for i in 0..count {
        let row = plus(at, i);
        let any = roll_u8(seed, 2) % 2;
        let one = u8::from(i == hot);
        let reset = if mixed { any } else { one };
        put_register(file, row, reset, plain(before));
        before = row;
    }
    end
}

// A bit of a counter: its register, its XOR with the carry, and the carry to the next bit.
fn put_bit(file: &mut [u8], at: usize, carry: u16) -> u16 {
    let sum = plus(at, 1);
    let next = plus(at, 2);
    put_register(file, at, 0, plain(sum));
    put_row(file, sum, cells(4, 0, plain(at), carry, 0));
    put_row(file, next, cells(3, 0, carry, plain(at), 0));
    plain(next)
}

// A counter from 0, three rows a bit.
pub fn put_counter(file: &mut [u8], at: usize, bits: usize) -> usize {
    let mut carry: u16 = 1;
    let mut row = at;
    for _ in 0..bits {
        carry = put_bit(file, row, carry);
        row = plus(row, 3);
    }
    row
}

// A literal of a register among the earlier rows, if one is met soon.
fn clock_literal(file: &[u8], seed: &mut u64, at: usize) -> u16 {
    let first = any_literal(seed, at);
    let second = any_literal(seed, at);
    let third = near_literal(seed, at);
    if kind_at(file, node_of(first)) == 2 {
        return first;
    }
    if kind_at(file, node_of(second)) == 2 {
        return second;
    }
    third
}

// A register that takes an earlier literal when a clock is high, or low, and else holds.
pub fn put_latch(file: &mut [u8], seed: &mut u64, at: usize) -> usize {
    let gate = plus(at, 1);
    let selector = clock_literal(file, seed, at);
    let data = earlier(seed, at);
    let reset = any_reset(seed);
    put_register(file, at, reset, plain(gate));
    let first = chance(seed, 2);
    let high = if first { data } else { plain(at) };
    let low = if first { plain(at) } else { data };
    put_row(file, gate, cells(5, 0, selector, high, low));
    plus(at, 2)
}

// A clock, and a register that takes the inverse of the clock or of itself, as a selector says, or of itself in both cases. Where both data are equal it turns over whatever the selector is.
pub fn put_held(file: &mut [u8], seed: &mut u64, at: usize) -> usize {
    let held = plus(at, 1);
    let gate = plus(at, 2);
    let selector = earlier(seed, at);
    let reset = roll_u8(seed, 2) % 2;
    let other = any_reset(seed);
    let alike = chance(seed, 2);
    let start = if alike { reset } else { other };
    let own = plain(held) ^ 1;
    let clock = plain(at) ^ 1;
    let high = if chance(seed, 3) { own } else { clock };
    put_register(file, at, reset, clock);
    put_register(file, held, start, plain(gate));
    put_row(file, gate, cells(5, 0, selector, high, own));
    plus(at, 3)
}

// A row of registers that fills with 1 from the first on, a register a step.
pub fn put_stem(file: &mut [u8], at: usize, count: usize) -> usize {
    let mut before: u16 = 1;
    for i in 0..count {
        let row = plus(at, i);
        put_register(file, row, 0, before);
        before = plain(row);
    }
    plus(at, count)
}

// A shift register, its first fed by the XOR of the last and another.
pub fn put_feedback(file: &mut [u8], seed: &mut u64, at: usize, count: usize) -> usize {
    let end = plus(at, count);
    let last = end.wrapping_sub(1);
    let tap = roll_from(seed, at, count);
    put_row(file, end, cells(4, 0, plain(last), plain(tap), 0));
    let mut before = end;
    for i in 0..count {
        let row = plus(at, i);
        put_register(file, row, 1, plain(before));
        before = row;
    }
    plus(end, 1)
}

// One piece; gates where `pick` is past the others.
pub fn put_piece(file: &mut [u8], seed: &mut u64, at: usize, pick: usize) -> usize {
    let few = roll_from(seed, 1, 4);
    let some = roll_from(seed, 2, 7);
    match pick {
        0 | 1 => put_input(file, at),
        2 | 3 => put_open_register(file, seed, at),
        4 => put_toggle(file, seed, at),
        5 | 6 => put_ring(file, seed, at, some),
        7 => put_counter(file, at, few),
        8 | 9 | 10 => put_latch(file, seed, at),
        11 => put_stem(file, at, few),
        12 | 13 => put_held(file, seed, at),
        _ => put_gate(file, seed, at),
    }
}

// A piece that makes lassos long: a wide counter, a long stem or a feedback register.
pub fn put_long_piece(file: &mut [u8], seed: &mut u64, at: usize) -> usize {
    let wide = roll_from(seed, 5, 5);
    let long = roll_from(seed, 4, 60);
    let shift = roll_from(seed, 3, 7);
    match roll(seed, 4) {
        0 | 1 => put_counter(file, at, wide),
        2 => put_stem(file, at, long),
        _ => put_feedback(file, seed, at, shift),
    }
}

// An open register gets a next value among the nodes.
pub fn close_register(file: &mut [u8], seed: &mut u64, at: usize, nodes: usize) {
    let row = row_at(file, at);
    if row.kind == 2 && row.c == 1 {
        let next = any_literal(seed, nodes);
        put_row(file, at, cells(2, row.reset, next, row.b, 0));
    }
}

pub fn put_output(file: &mut [u8], seed: &mut u64, at: usize, nodes: usize) {
    let literal = any_literal(seed, nodes);
    put_row(file, at, cells(6, 0, literal, label_of(at), 0));
}
