// Bytes and numbers of a lent buffer; past its end nothing is read or written.
ghost use Rattle.std.specs.Prelude.{◌<◌};

use text::bytes::get;

pub fn size_at(numbers: &[u32], at: usize) -> usize
    ensures { result < 4294967296 }
{
    get(numbers, at) as usize
}

// The low 8 bits.
pub fn byte_at(numbers: &[u32], at: usize) -> u8 {
    (get(numbers, at) % 256) as u8
}

// The low 16 bits.
pub fn field_at(numbers: &[u32], at: usize) -> u16 {
    (get(numbers, at) % 65536) as u16
}

// Every byte becomes that of `model`, and 0 past its end.
pub fn copy(bytes: &mut [u8], model: &[u8]) {
    let size = model.len().min(bytes.len());
    bytes[..size].copy_from_slice(&model[..size]);
    bytes[size..].fill(0);
}

// Whether every byte from `start` on is `value`.
pub fn all_from(bytes: &[u8], start: usize, value: u8) -> bool {
    bytes.iter().skip(start).all(|&byte| byte == value)
}

pub fn one_if(x: bool) -> u32 {
    u32::from(x)
}
