// The script on standard input: a line is a word and numbers, parted by single blanks; only the word's first letter counts.
use text::numbers::{LARGEST, with_digit};

// The number with one byte more; a byte that is no digit changes nothing.
fn with_byte(value: u32, byte: u8) -> u32 {
    match byte {
        b'0'..=b'9' => with_digit(value, byte - b'0', LARGEST),
        _ => value,
    }
}

// The number with the digits of a word more.
fn with_word(value: u32, word: &[u8]) -> u32 {
    let mut longer = value;
    for &byte in word {
        longer = with_byte(longer, byte);
    }
    longer
}

// Every word of the line as a number, 0 if it has no digit.
pub fn read_numbers(line: &[u8], numbers: &mut [u32]) {
    for (word, number) in line.split(|&byte| byte == b' ').zip(numbers.iter_mut()) {
        *number = with_word(*number, word);
    }
}
