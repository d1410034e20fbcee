// Memory to lend. The length of each room is promised, so that its callers need not count.
ghost use Rattle.std.specs.Prelude.{◌≡◌, length};

// What results and work hold before.
const FILL: u8 = 170;

// ---- zeros

// A file of two blocks more than the most; or the values of the longest file over seven steps.
pub fn long_zeros() -> [u8; 263168]
    ensures { 263168 ≡ length result }
{
    [0; 263168]
}

// What a run shows, the most work of Run, or the values of a file that is folded.
pub fn short_zeros() -> [u8; 65792]
    ensures { 65792 ≡ length result }
{
    [0; 65792]
}

// Fold's work.
pub fn fold_work() -> [u8; 49152]
    ensures { 49152 ≡ length result }
{
    [0; 49152]
}

// A text of as many rows as the long lists have room for.
pub fn text_zeros() -> [u8; 655360]
    ensures { 655360 ≡ length result }
{
    [0; 655360]
}

// ---- filled

// The greatest file, or Import's work, and some more.
pub fn long_filled() -> [u8; 262208]
    ensures { 262208 ≡ length result }
{
    [FILL; 262208]
}

// Fold's result, or the most work of Run and Sort, and some more.
pub fn short_filled() -> [u8; 65600]
    ensures { 65600 ≡ length result }
{
    [FILL; 65600]
}

// ---- words

// One for each label, or for each row of a file.
pub fn words() -> [u16; 65536]
    ensures { 65536 ≡ length result }
{
    [0; 65536]
}

// ---- of a text of so many lines: eight numbers for each, one, and two

pub const LONG_TABLE: usize = 397312;

pub const LONG_LIST: usize = 49664;

pub const LONG_PAIRS: usize = 99328;

pub const SHORT_TABLE: usize = 65536;

pub const SHORT_LIST: usize = 8192;

pub const SHORT_PAIRS: usize = 16384;

// Whether the short ones are enough for a text: a line has two bytes at least.
pub fn is_short(text: &[u8]) -> bool {
    text.len() < 16384
}
