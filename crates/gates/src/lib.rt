// The gates of the fold: how a new gate is made from two or three literals.
#![tactic(auto)]

ghost use Rattle.std.specs.Prelude.{◌≡◌};
ghost use Rattle.netlist.specs.Rows.{mux_gate};
ghost use Rattle.abstraction.specs.GateMaking.{complement, new_row, make_and, make_xor, make_mux};
ghost use Rattle.gates.specs.ImageCode.{image_code, pair_code};

// The fields of a new row, as its eight bytes have them.
#[derive(Clone, Copy)]
pub struct MadeRow {
    pub kind: u8,
    pub reset: u8,
    pub a: u16,
    pub b: u16,
    pub c: u16,
}

// An image: a literal that is there, or a new row, complemented if the number is 1.
#[derive(Clone, Copy)]
pub enum MadeImage {
    Existing(u16),
    NewRow(MadeRow, u8),
}

// The complement of a literal.
pub fn complement(l: u16) -> u16
    ensures { result ≡ complement l }
{
    if l % 2 == 0 { l + 1 } else { l - 1 }
}

// A new gate of two operands, the smaller first.
fn pair_gate(kind: u8, a: u16, b: u16, complemented: u8) -> MadeImage
    ensures { result ≡ pair_code kind a b complemented }
{
    MadeImage::NewRow(
        MadeRow {
            kind,
            reset: 0,
            a: a.min(b),
            b: a.max(b),
            c: 0,
        },
        complemented,
    )
}

pub fn make_and(a: u16, b: u16) -> MadeImage
    ensures { result ≡ image_code (make_and a b) }
{
    if a == 0 || b == 0 || a == complement(b) {
        return MadeImage::Existing(0);
    }
    if a == 1 {
        return MadeImage::Existing(b);
    }
    if b == 1 {
        return MadeImage::Existing(a);
    }
    if a == b {
        return MadeImage::Existing(a);
    }
    pair_gate(3, a, b, 0)
}

pub fn make_xor(a: u16, b: u16) -> MadeImage
    ensures { result ≡ image_code (make_xor a b) }
{
    if a == b {
        return MadeImage::Existing(0);
    }
    if a == complement(b) {
        return MadeImage::Existing(1);
    }
    if a == 0 {
        return MadeImage::Existing(b);
    }
    if b == 0 {
        return MadeImage::Existing(a);
    }
    if a == 1 {
        return MadeImage::Existing(complement(b));
    }
    if b == 1 {
        return MadeImage::Existing(complement(a));
    }
    let complemented = ((a % 2 + b % 2) % 2) as u8;
    pair_gate(4, 2 * (a / 2), 2 * (b / 2), complemented)
}

// A new MUX.
fn mux_gate(a: u16, b: u16, c: u16) -> MadeImage
    ensures { result ≡ image_code (new_row (mux_gate a b c) 0) }
{
    MadeImage::NewRow(
        MadeRow {
            kind: 5,
            reset: 0,
            a,
            b,
            c,
        },
        0,
    )
}

// b if a is 1, c if a is 0.
pub fn make_mux(a: u16, b: u16, c: u16) -> MadeImage
    ensures { result ≡ image_code (make_mux a b c) }
{
    if a == 0 {
        return MadeImage::Existing(c);
    }
    if a == 1 {
        return MadeImage::Existing(b);
    }
    if b == c {
        return MadeImage::Existing(b);
    }
    if a % 2 == 0 {
        return mux_gate(a, b, c);
    }
    mux_gate(complement(a), c, b)
}
