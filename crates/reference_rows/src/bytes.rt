// Bytes, 16-bit words and numbers of a lent run, by place. Past the end there are none: 0 is read, and nothing is written.
pub fn after(i: usize) -> usize {
    i.wrapping_add(1)
}

// The byte, word or number there.
pub fn item<T: Copy + Default>(items: &[T], at: usize) -> T {
    items.get(at).copied().unwrap_or_default()
}

pub fn put_item<T: Copy>(items: &mut [T], at: usize, value: T) {
    if at < items.len() {
        items[at] = value;
    }
}

// The little-endian field of two bytes.
pub fn field(bytes: &[u8], at: usize) -> u16 {
    u16::from_le_bytes([item(bytes, at), item(bytes, after(at))])
}

pub fn put_field(bytes: &mut [u8], at: usize, value: u16) {
    let [low, high] = value.to_le_bytes();
    put_item(bytes, at, low);
    put_item(bytes, after(at), high);
}
