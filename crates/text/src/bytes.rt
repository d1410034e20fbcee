// Bytes and numbers of a lent slice; past its end nothing is read or written.
ghost use Rattle.std.specs.Prelude.{◌≡◌, ◌<◌, ◌≤◌, length};

// The byte or number at `at`, and 0 past the end.
pub fn get<T: Copy + Default>(items: &[T], at: usize) -> T {
    items.get(at).copied().unwrap_or_default()
}

// The byte or number at `at` becomes `value`.
pub fn put<T: Copy>(items: &mut [T], at: usize, value: T)
    ensures { length items.new ≡ length items.old }
{
    if at < items.len() {
        items[at] = value;
    }
}

// A byte as a number.
pub fn wide(byte: u8) -> usize
    ensures { result < 256 }
{
    usize::from(byte)
}

// Whether a byte parts words: a blank, a tab, or an end of line.
pub fn is_blank(byte: u8) -> bool {
    matches!(byte, b' ' | b'\t' | b'\r' | b'\n')
}

// The smaller of the two.
pub fn least(x: usize, y: usize) -> usize
    ensures { (result ≤ x) × (result ≤ y) }
{
    x.min(y)
}

// The first `size` bytes, or all.
pub fn first(bytes: &[u8], size: usize) -> &[u8] {
    &bytes[..size.min(bytes.len())]
}

// The bytes from `start` on, or none.
pub fn rest(bytes: &[u8], start: usize) -> &[u8] {
    &bytes[start.min(bytes.len())..]
}

// Whether two runs of bytes are the same.
pub fn same(x: &[u8], y: &[u8]) -> bool {
    x == y
}

// Where a byte first stands from `start` on; the end if it does not.
pub fn find(text: &[u8], start: usize, wanted: u8) -> usize
    requires { start ≤ length text.now }
    ensures { (start ≤ result) × (result ≤ length text.now) }
{
    match text[start..].iter().position(|&byte| byte == wanted) {
        Some(at) => start + at,
        None => text.len(),
    }
}
