// The blocks of a netlist file: questions 2 to 5, asked of one of them, and the writer.
#![tactic(auto)]

ghost use Rattle.std.specs.Prelude.{◌≡◌, ◌↔◌, ◌<◌, ◌≤◌, length, All, IsTrue};
ghost use Rattle.memory.specs.Fields.{byte_at};
ghost use Rattle.netlist.specs.Limits.{most_blocks};
ghost use Rattle.netlist.specs.FileFormat.{last_mark};
ghost use Rattle.questions.specs.Questions.{head_right, count_right, unused_right, block_questions};
ghost use Rattle.blocks.specs.BlockCode.{block_number};

pub mod writer;

// The first question that a block answers with no.
#[derive(Clone, Copy, Debug, PartialEq, Eq)]
pub enum BlockRefusal {
    Sum,
    Header,
    RowCount,
    Unused,
}

// The sum of a block's words, less its carries.
pub const RIGHT_SUM: u32 = 4294967295;

// Byte 0 of a block.
pub fn last_mark(number: usize, blocks: usize) -> u8
    requires { number < blocks }
    ensures { result ≡ last_mark blocks number }
{
    let next = number + 1;
    if next == blocks { 2 } else { 1 }
}

fn header_right(block: &[u8], number: usize, blocks: usize) -> bool
    requires { (length block.now ≡ 512) × (number < blocks) }
    ensures { result ≡ head_right blocks number block.now }
{
    let mark = last_mark(number, blocks);
    let low = memory::read_u8(block, 1) as usize;
    let high = memory::read_u8(block, 3) as usize;
    let marked = block[0] == mark;
    let low_right = low == number % 256;
    let high_right = high == number / 256 % 256;
    marked && low_right && high_right
}

fn row_count_right(block: &[u8], number: usize, blocks: usize) -> bool
    requires { (length block.now ≡ 512) × (number < blocks) }
    ensures { result ≡ count_right blocks number block.now }
{
    let count = block[2];
    let next = number + 1;
    if next == blocks {
        1 <= count && count <= 63
    } else {
        count == 63
    }
}

fn all_zero(bytes: &[u8]) -> bool
    ensures { IsTrue result ↔ All (λ byte. byte ≡ 0) bytes.now }
{
    bytes.iter().all(|&byte| byte == 0)
}

// The bytes after the block's last row are zeros, up to its check.
fn unused_right(block: &[u8]) -> bool
    requires { (length block.now ≡ 512) × (byte_at block.now 2 ≤ 63) }
    ensures { result ≡ unused_right block.now }
{
    let start = 4 + 8 * block[2] as usize;
    all_zero(&block[start..508])
}

pub fn check_block(block: &[u8], number: usize, blocks: usize) -> Result<(), BlockRefusal>
    requires { (length block.now ≡ 512) × ((number < blocks) × (blocks ≤ most_blocks)) }
    ensures { block_number result ≡ block_questions blocks number block.now }
{
    let sum = writer::word_sum(block, 128);
    let summed = sum == RIGHT_SUM;
    let headed = header_right(block, number, blocks);
    let counted = row_count_right(block, number, blocks);
    if !summed {
        return Err(BlockRefusal::Sum);
    }
    if !headed {
        return Err(BlockRefusal::Header);
    }
    if !counted {
        return Err(BlockRefusal::RowCount);
    }
    if !unused_right(block) {
        return Err(BlockRefusal::Unused);
    }
    Ok(())
}
