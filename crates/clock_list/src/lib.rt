// The lent clock list: a slice of clock structs, set from the entries that are packed in Fold's work memory.
#![tactic(auto)]

ghost use Rattle.std.specs.Prelude.{◌≡◌, ◌++◌, ◌<◌, ◌≤◌, length, set, drop};
ghost use Rattle.memory.specs.Fields.{byte_at};
ghost use Rattle.netlist.specs.Limits.{fold_clock_entries};
ghost use Rattle.fold_memory.specs.WorkMap.{entry_in, entries_in};
ghost use Rattle.clock_list.specs.ClockCode.{clock_of, clocks_of};

use fold_memory::ENTRIES;

// A used generator: its register's label, its period, its values over the phases as bits, and how many of these are set.
#[repr(C)]
#[derive(Clone, Copy)]
pub struct Clock {
    pub label: u16,
    pub period: u8,
    pub word: u8,
    pub ones: u32,
}

// The byte at `at`, and 0 past the end.
fn byte_or_zero(work: &[u8], at: usize) -> u8
    ensures { result ≡ byte_at work.now at }
{
    work.get(at).copied().unwrap_or(0)
}

// The packed entry `index`.
fn entry_at(work: &[u8], index: usize) -> Clock
    requires { index < fold_clock_entries }
    ensures { result ≡ clock_of (entry_in work.now index) }
{
    let offset = ENTRIES + 8 * index;
    let label_low = byte_or_zero(work, offset);
    let label_high = byte_or_zero(work, offset + 1);
    let period = byte_or_zero(work, offset + 2);
    let word = byte_or_zero(work, offset + 3);
    let ones_0 = byte_or_zero(work, offset + 4);
    let ones_1 = byte_or_zero(work, offset + 5);
    let ones_2 = byte_or_zero(work, offset + 6);
    let ones_3 = byte_or_zero(work, offset + 7);
    Clock {
        label: u16::from_le_bytes([label_low, label_high]),
        period,
        word,
        ones: u32::from_le_bytes([ones_0, ones_1, ones_2, ones_3]),
    }
}

// Sets one entry; no other changes.
fn set_clock(clocks: &mut [Clock], index: usize, clock: Clock)
    requires { index < length clocks.old }
    ensures { clocks.new ≡ set clocks.old index clock }
{
    clocks[index] = clock;
}

// Sets the first `used` entries from the packed ones; the others are unchanged.
pub fn set_clocks(clocks: &mut [Clock], work: &[u8], used: usize)
    requires { (used ≤ length clocks.old) × (used ≤ fold_clock_entries) }
    ensures { clocks.new ≡ clocks_of (entries_in work.now used) ++ drop used clocks.old }
{
    for index in 0..used {
        set_clock(clocks, index, entry_at(work, index));
    }
}
