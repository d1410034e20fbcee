// Numbers by chance from a seed: the same seed gives the same numbers.

// A turn of Marsaglia's xorshift.
fn stir(seed: &mut u64) {
    let x = *seed;
    let y = x ^ (x << 13);
    let z = y ^ (y >> 7);
    *seed = z ^ (z << 17);
}

// A number below `sides`, and 0 of no sides.
pub fn roll(seed: &mut u64, sides: usize) -> usize {
    stir(seed);
    let high = (*seed >> 33) as usize;
    if sides == 0 { 0 } else { high % sides }
}

// A number from `low` on, below `low` and `sides` together.
pub fn roll_from(seed: &mut u64, low: usize, sides: usize) -> usize {
    let more = roll(seed, sides);
    low.wrapping_add(more)
}

// One time in `sides`.
pub fn chance(seed: &mut u64, sides: usize) -> bool {
    roll(seed, sides) == 0
}

pub fn roll_u8(seed: &mut u64, sides: usize) -> u8 {
    (roll(seed, sides) % 256) as u8
}

pub fn roll_u16(seed: &mut u64, sides: usize) -> u16 {
    (roll(seed, sides) % 65536) as u16
}

// A literal of one of the first nodes.
pub fn any_literal(seed: &mut u64, nodes: usize) -> u16 {
    roll_u16(seed, 2 * (nodes % 32768))
}

// A literal of one of the last eight nodes before `at`.
pub fn near_literal(seed: &mut u64, at: usize) -> u16 {
    let back = roll_from(seed, 1, 8);
    let node = at.wrapping_sub(back);
    let inverted = roll_u16(seed, 2) % 2;
    if at < back { 0 } else { plain(node) ^ inverted }
}

// A node's literal.
pub fn plain(node: usize) -> u16 {
    (2 * (node % 32768)) as u16
}

// Zeros and ones by chance in the first bytes.
pub fn put_values(bytes: &mut [u8], seed: &mut u64, count: usize) {
    for i in 0..count {
        let value = roll_u8(seed, 2);
        text::bytes::put(bytes, i, value);
    }
}

// How much is lent: at times one byte too few, or some more.
pub fn lent_of(seed: &mut u64, needed: usize) -> usize {
    match roll(seed, 24) {
        0 => needed.wrapping_sub(1),
        1 | 2 | 3 => needed.wrapping_add(16),
        _ => needed,
    }
}
