// The three-valued gates over the codes 0, 1 and 2 (X): AND by arithmetic, fixed tables for XOR and MUX.
#![tactic(auto)]

ghost use Rattle.std.specs.Prelude.{◌≡◌, ◌<◌};
ghost use Rattle.ternary.specs.Ternary.{and3, xor3, mux3, code_of, value_of};

// The answer for the codes a and b is at 3 * a + b.
const XOR: [u8; 9] = [0, 1, 2, 1, 0, 2, 2, 2, 2];

// The answer for the selector s and the codes b and c is at 9 * s + 3 * b + c.
const MUX: [u8; 27] = [
    0, // s is 0: c
    1, 2, 0, 1, 2, 0, 1, 2, 0, // s is 1: b
    0, 0, 1, 1, 1, 2, 2, 2, 0, // s is X: b if it is c, else X
    2, 2, 2, 1, 2, 2, 2, 2,
];

// The product of the codes, capped at 2.
pub fn and_code(a: u8, b: u8) -> u8
    requires { (a < 3) × (b < 3) }
    ensures { result ≡ code_of (and3 (value_of a) (value_of b)) }
{
    let product = a * b;
    if product < 2 { product } else { 2 }
}

pub fn xor_code(a: u8, b: u8) -> u8
    requires { (a < 3) × (b < 3) }
    ensures { result ≡ code_of (xor3 (value_of a) (value_of b)) }
{
    let index = (3 * a + b) as usize;
    XOR[index]
}

pub fn mux_code(s: u8, b: u8, c: u8) -> u8
    requires { (s < 3) × ((b < 3) × (c < 3)) }
    ensures { result ≡ code_of (mux3 (value_of s) (value_of b) (value_of c)) }
{
    let index = (9 * s + 3 * b + c) as usize;
    MUX[index]
}

// The code, or its inverse if `inverted` is 1. The XOR of the two numbers makes 3 of an inverted X, which is 2.
pub fn complement_code(inverted: u8, value: u8) -> u8
    requires { (inverted < 2) × (value < 3) }
    ensures { result ≡ code_of (xor3 (value_of inverted) (value_of value)) }
{
    let flipped = value ^ inverted;
    if flipped < 2 { flipped } else { 2 }
}
