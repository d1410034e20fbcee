// Rows that stand in a buffer sealed as a netlist file: heads, zeros after the last row, checks, and zeros after the last block.
ghost use Rattle.std.specs.Prelude.{◌≡◌, ◌+◌, ◌-◌, ◌*◌, ◌%◌, ◌^◌, ◌<◌, ◌≤◌, min, List, [], ◌∷◌, ◌++◌, length, drop, replicate};
ghost use Rattle.std.proofs.lemmas.List.Edits.{sets};
ghost use Rattle.memory.specs.Fields.{u32_bytes};
ghost use Rattle.netlist.specs.Limits.{most_blocks, most_rows};
ghost use Rattle.netlist.specs.Rows.{Row};
ghost use Rattle.netlist.specs.FileFormat.{word_sum, check_word, block_bytes, blocks_for, file_of};
ghost use Rattle.blockfile.specs.RowsStand.{RowsStand};

// The sum of the first words of 32 bits; carries out of 32 bits are dropped.
pub fn word_sum(bytes: &[u8], words: usize) -> u32
    requires { 4 * words ≤ length bytes.now }
    ensures { result ≡ word_sum bytes.now words % 2 ^ 32 }
{
    let mut sum: u32 = 0;
    for i in 0..words {
        let word = memory::read_u32(bytes, 4 * i);
        sum = sum.wrapping_add(word);
    }
    sum
}

// How many of the rows stand in a block.
fn rows_in(rows: usize, number: usize) -> usize
    requires { 63 * number ≤ rows }
    ensures { result ≡ min 63 (rows - 63 * number) }
{
    let left = rows - 63 * number;
    if left < 63 { left } else { 63 }
}

fn write_head(block: &mut [u8], mark: u8, low: u8, count: u8, high: u8)
    requires { 4 ≤ length block.old }
    ensures { block.new ≡ sets block.old 0 (mark ∷ low ∷ count ∷ high ∷ []) }
{
    block[0] = mark;
    block[1] = low;
    block[2] = count;
    block[3] = high;
}

// The check of the 508 bytes before it.
fn write_check(block: &mut [u8])
    requires { 512 ≤ length block.old }
    ensures { block.new ≡ sets block.old 508 (u32_bytes (check_word block.old)) }
{
    let sum = word_sum(block, 127);
    let check = crate::RIGHT_SUM - sum;
    memory::write_u32(block, 508, check);
}

// Block `number` of `blocks`, in the first 512 bytes, around the `count` rows that stand there: its head, zeros after the rows, its check. What follows stays.
pub fn write_block(block: &mut [u8], blocks: usize, number: usize, count: usize)
    requires { (512 ≤ length block.old) × ((count ≤ 63) × ((number < blocks) × (blocks ≤ most_blocks))) }
    ensures { (rs : List Row) → length rs ≡ count → RowsStand rs block.old → block.new ≡ block_bytes blocks number rs ++ drop 512 block.old }
{
    let mark = crate::last_mark(number, blocks);
    let low = (number % 256) as u8;
    let high = (number / 256 % 256) as u8;
    let used = count as u8;
    let unused = 4 + 8 * count;
    write_head(block, mark, low, used, high);
    memory::clear(&mut block[unused..512]);
    write_check(block);
}

// The file of the rows that stand in `result`, and zeros after it.
pub fn write_file(res: &mut [u8], rows: usize)
    requires { (rows ≤ most_rows) × (512 * blocks_for rows ≤ length res.old) }
    ensures { (rs : List Row) → length rs ≡ rows → RowsStand rs res.old → res.new ≡ file_of rs ++ replicate (length res.old - 512 * blocks_for rows) 0 }
{
    let blocks = (rows + 62) / 63;
    for number in 0..blocks {
        let start = 512 * number;
        let end = start + 512;
        let count = rows_in(rows, number);
        write_block(&mut res[start..end], blocks, number, count);
    }
    let size = 512 * blocks;
    memory::clear_from(res, size);
}
