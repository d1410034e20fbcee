// Little-endian numbers read from a run of bytes and written to it, tables of such numbers, and bytes cleared.
#![tactic(auto)]

ghost use Rattle.std.specs.Prelude.{◌≡◌, ◌++◌, ◌+◌, ◌-◌, ◌*◌, ◌^◌, ◌<◌, ◌≤◌, length, take, replicate};
ghost use Rattle.std.proofs.lemmas.List.Edits.{sets};
ghost use Rattle.memory.specs.Fields.{byte_at, u16_at, u32_at, u16_bytes, u32_bytes};
ghost use Rattle.memory.specs.Slots.{slot_at, set_slot};

pub fn read_u8(s: &[u8], at: usize) -> u32
    requires { at < length s.now }
    ensures { (result ≡ byte_at s.now at) × (result < 2 ^ 8) }
{
    s[at] as u32
}

pub fn read_u16(s: &[u8], at: usize) -> u32
    requires { at + 2 ≤ length s.now }
    ensures { (result ≡ u16_at s.now at) × (result < 2 ^ 16) }
{
    let low = read_u8(s, at);
    let next = at + 1;
    let high = read_u8(s, next);
    low + 256 * high
}

pub fn read_u32(s: &[u8], at: usize) -> u32
    requires { at + 4 ≤ length s.now }
    ensures { result ≡ u32_at s.now at }
{
    let low = read_u16(s, at);
    let next = at + 2;
    let high = read_u16(s, next);
    low + 65536 * high
}

// Writes the low 16 bits of v.
pub fn write_u16(s: &mut [u8], at: usize, v: u32)
    requires { at + 2 ≤ length s.old }
    ensures { s.new ≡ sets s.old at (u16_bytes v) }
{
    let low = (v % 256) as u8;
    let high = (v / 256 % 256) as u8;
    let next = at + 1;
    s[at] = low;
    s[next] = high;
}

pub fn write_u32(s: &mut [u8], at: usize, v: u32)
    requires { at + 4 ≤ length s.old }
    ensures { s.new ≡ sets s.old at (u32_bytes v) }
{
    let high = v / 65536;
    let next = at + 2;
    write_u16(s, at, v);
    write_u16(s, next, high);
}

// A slot of a table that has two bytes for each.
pub fn slot_at(slots: &[u8], index: usize) -> usize
    requires { 2 * index + 2 ≤ length slots.now }
    ensures { (result ≡ slot_at slots.now index) × (result < 2 ^ 16) }
{
    let offset = 2 * index;
    read_u16(slots, offset) as usize
}

pub fn set_slot(slots: &mut [u8], index: usize, value: usize)
    requires { (2 * index + 2 ≤ length slots.old) × (value < 2 ^ 16) }
    ensures { slots.new ≡ set_slot slots.old index value }
{
    let offset = 2 * index;
    write_u16(slots, offset, value as u32);
}

// The bytes from `at` on become 0; past the end there are none. By a loop, of which the proof knows each byte, where `fill` has one fact of all.
pub fn clear_from(s: &mut [u8], at: usize)
    ensures { s.new ≡ take at s.old ++ replicate (length s.old - at) 0 }
{
    for i in at..s.len() {
        s[i] = 0;
    }
}

pub fn clear(s: &mut [u8])
    ensures { s.new ≡ replicate (length s.old) 0 }
{
    clear_from(s, 0);
}
