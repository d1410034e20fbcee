// Memory of zeros for what is worked out on the way. The length of each is promised, so that its callers need not count.
ghost use Rattle.std.specs.Prelude.{◌≡◌, length};

use crate::rows::{MOST_BYTES, MOST_ROWS};

// ---- of a file

pub fn file_bytes() -> [u8; MOST_BYTES]
    ensures { 262144 ≡ length result }
{
    [0; MOST_BYTES]
}

// A byte, a 16-bit word or a number for each row.
pub fn row_bytes() -> [u8; MOST_ROWS]
    ensures { 32256 ≡ length result }
{
    [0; MOST_ROWS]
}

pub fn row_words() -> [u16; MOST_ROWS]
    ensures { 32256 ≡ length result }
{
    [0; MOST_ROWS]
}

pub fn row_numbers() -> [u32; MOST_ROWS]
    ensures { 32256 ≡ length result }
{
    [0; MOST_ROWS]
}

// ---- of a fold

// 257 states of 256 registers.
pub fn state_bytes() -> [u8; 65792]
    ensures { 65792 ≡ length result }
{
    [0; 65792]
}

// Images of 1,008 rows in eight phases.
pub fn image_words() -> [u16; 8064]
    ensures { 8064 ≡ length result }
{
    [0; 8064]
}

// Five words for each row that is made, and its mark.
pub fn made_words() -> [u16; 40960]
    ensures { 40960 ≡ length result }
{
    [0; 40960]
}

pub fn mark_words() -> [u16; 8192]
    ensures { 8192 ≡ length result }
{
    [0; 8192]
}
