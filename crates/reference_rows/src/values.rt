// Values 0, 1 and 2 (unknown) of gates and literals. Where none is unknown these are the two-valued rules.
use crate::bytes::item;
use crate::rows::{Row, node_of};

pub fn and3(x: u8, y: u8) -> u8 {
    match (x, y) {
        (0, _) | (_, 0) => 0,
        (1, 1) => 1,
        _ => 2,
    }
}

pub fn xor3(x: u8, y: u8) -> u8 {
    match (x, y) {
        (2, _) | (_, 2) => 2,
        _ => u8::from(x != y),
    }
}

pub fn mux3(selector: u8, high: u8, low: u8) -> u8 {
    match selector {
        0 => low,
        1 => high,
        _ if high == low => high,
        _ => 2,
    }
}

pub fn literal_value(values: &[u8], literal: u16) -> u8 {
    let plain = item(values, node_of(literal));
    if literal % 2 == 0 {
        return plain;
    }
    match plain {
        0 => 1,
        1 => 0,
        _ => 2,
    }
}

// The value of a gate, or of an output, from the values of the rows before.
pub fn gate_value(values: &[u8], row: Row) -> u8 {
    let x = literal_value(values, row.a);
    let y = literal_value(values, row.b);
    let z = literal_value(values, row.c);
    match row.kind {
        3 => and3(x, y),
        4 => xor3(x, y),
        5 => mux3(x, y, z),
        6 => x,
        _ => 0,
    }
}
