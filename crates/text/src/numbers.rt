// Numbers in digits, read from bytes.
use crate::bytes::get;

pub const LARGEST: u32 = u32::MAX;

// The number with one digit more; `most` stands for all that are no smaller.
pub fn with_digit(value: u32, digit: u8, most: u32) -> u32 {
    let longer = 10 * u64::from(value) + u64::from(digit);
    longer.min(u64::from(most)) as u32
}

// The number at `at`, and 0 past the end.
pub fn number_at(numbers: &[u32], at: usize) -> u32 {
    get(numbers, at)
}

// The number whose digits all bytes are; one that is too large for its type is read as the largest.
pub fn read(digits: &[u8]) -> Option<u32> {
    if digits.is_empty() {
        return None;
    }
    let mut value = 0;
    for &byte in digits {
        if !byte.is_ascii_digit() {
            return None;
        }
        value = with_digit(value, byte - b'0', LARGEST);
    }
    Some(value)
}

// The digit's byte.
pub fn digit_byte(digit: u8) -> u8 {
    b"0123456789abcdef"[usize::from(digit % 16)]
}
