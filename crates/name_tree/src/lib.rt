// Numbers that are looked up, in a binary tree of entries: entry j stands at `base` + 8 * j, its number in four bytes, then its two children, two bytes each, 0 for none; entry 0 is the root, which is no child.
// The way to a number goes by its bits, the lowest first. Different numbers part after 32 bits at most, so no way is longer than that.
#![tactic(auto)]

ghost use Rattle.std.specs.Prelude.{◌≡◌, true, false, ◌+◌, ◌*◌, ◌<◌, ◌≤◌, ◌^◌, length};
ghost use Rattle.std.proofs.lemmas.List.Edits.{sets};
ghost use Rattle.memory.specs.Fields.{u16_bytes};
ghost use Rattle.name_tree.specs.Trees.{child_at, entry_of, Tree, Added, Written, Ended};

// An entry where a way ends open, and the bit for which it has no child.
#[derive(Clone, Copy)]
struct Open {
    entry: usize,
    bit: usize,
}

// The child of the entry for the bit; 0 if it has none.
// By number, as the field stands in memory: `child_at` (specs/Trees.antt) and `write_entry` have 0 for none.
fn child_at(work: &[u8], base: usize, entry: usize, bit: usize) -> usize
    requires { (base + 8 * entry + 8 ≤ length work.now) × (bit < 2) }
    ensures { result ≡ child_at work.now base entry bit }
{
    let offset = base + 8 * entry;
    let children = offset + 4;
    let at = children + 2 * bit;
    memory::read_u16(work, at) as usize
}

// The child of the entry for the bit becomes `child`.
fn set_child(work: &mut [u8], base: usize, entry: usize, bit: usize, child: usize)
    requires { (base + 8 * entry + 8 ≤ length work.old) × ((bit < 2) × (child < 2 ^ 16)) }
    ensures { work.new ≡ sets work.old (base + 8 * entry + 4 + 2 * bit) (u16_bytes child) }
{
    let offset = base + 8 * entry;
    let children = offset + 4;
    let at = children + 2 * bit;
    memory::write_u16(work, at, child as u32);
}

// The way to the number, from the root: the number's entry, or where the way ends open.
fn find_end(work: &[u8], base: usize, count: usize, number: u32) -> Result<usize, Open>
    requires { Tree work.now base count × (0 < count) }
    ensures { Ended work.now base count number result }
{
    let mut entry = 0;
    let mut rest = number;
    loop {
        let offset = base + 8 * entry;
        if memory::read_u32(work, offset) == number {
            return Ok(entry);
        }
        let bit = (rest % 2) as usize;
        let next = child_at(work, base, entry, bit);
        if next == 0 {
            return Err(Open { entry, bit });
        }
        rest /= 2;
        entry = next;
    }
}

// The entry of the number; `count` if there is none.
// By number: so has `entry_of` (specs/Trees.antt), by which `found_in` of `aiger_names` counts on from a window's start.
pub fn find_entry(work: &[u8], base: usize, count: usize, number: u32) -> usize
    requires { Tree work.now base count }
    ensures { result ≡ entry_of work.now base count number }
{
    if count == 0 {
        return 0;
    }
    find_end(work, base, count, number).unwrap_or(count)
}

// The entry's number, without children.
fn write_entry(work: &mut [u8], base: usize, entry: usize, number: u32)
    requires { base + 8 * entry + 8 ≤ length work.old }
    ensures { Written work.old base entry number work.new }
{
    let offset = base + 8 * entry;
    let children = offset + 4;
    memory::write_u32(&mut *work, offset, number);
    memory::write_u32(work, children, 0);
}

// The number becomes entry `count`; false, and nothing changes, if it is in the tree.
pub fn add_entry(work: &mut [u8], base: usize, count: usize, number: u32) -> bool
    requires { Tree work.old base count × ((base + 8 * count + 8 ≤ length work.old) × (count + 1 < 2 ^ 16)) }
    ensures added { result ≡ true → Added work.old base count number work.new }
    ensures number_bound { result ≡ false → entry_of work.old base count number < count }
    ensures work_len_unchanged { length work.new ≡ length work.old }
{
    if count == 0 {
        write_entry(work, base, count, number);
        return true;
    }
    let Err(open) = find_end(work, base, count, number) else {
        return false;
    };
    set_child(&mut *work, base, open.entry, open.bit, count);
    write_entry(work, base, count, number);
    true
}
