// The words of used generators: a list in row order for the caller, and a word for each row for the images.
ghost use Rattle.std.specs.Prelude.{◌<◌};

use crate::states::{cell, divides};
use reference_rows::bytes::{after, item, put_item};
use reference_rows::rows::row_at;

// 2 to the phase.
pub fn power(phase: usize) -> u16
    ensures { 0 < result }
{
    1 << phase.min(7)
}

// Bit k is the generator's value at phase k.
fn word_of(states: &[u8], j: usize, period: usize, phases: usize) -> u16 {
    let mut bits: u16 = 0;
    for k in 0..phases {
        let at = if period == 0 { 0 } else { k % period };
        if item(states, cell(at, j)) == 1 {
            bits = bits.wrapping_add(power(k));
        }
    }
    bits
}

// Label, period, word and ones of an entry.
fn put_entry(list: &mut [u32], entry: usize, label: u16, period: u16, bits: u16) {
    let from = 4 * (entry % 256);
    put_item(list, from, label.into());
    put_item(list, from + 1, period.into());
    put_item(list, from + 2, bits.into());
    put_item(list, from + 3, bits.count_ones());
}

// A generator whose period divides the phase count: its row, period and word.
#[derive(Clone, Copy)]
struct Clock {
    at: usize,
    period: u16,
    bits: u16,
}

fn clock_of(
    registers: &[u16],
    states: &[u8],
    periods: &[u16],
    phases: usize,
    j: usize,
) -> Option<Clock> {
    let period: u16 = item(periods, j);
    let length = period.into();
    if !divides(length, phases) {
        return None;
    }
    Some(Clock {
        at: item(registers, j).into(),
        period,
        bits: word_of(states, j, length, phases) % 256,
    })
}

// A used clock goes to its row and to the list; the answer is how many are used.
fn put_clock(
    file: &[u8],
    clock: Clock,
    count: usize,
    fixed: &mut [u16],
    list: &mut [u32],
) -> usize {
    let row = row_at(file, clock.at);
    put_item(fixed, clock.at, 256 + clock.bits % 256);
    put_entry(list, count, row.b, clock.period, clock.bits);
    after(count)
}

// The list has an entry for each used generator, and `fixed` at its row 256 and its word. The answer is how many.
pub fn put_clocks(
    file: &[u8],
    registers: &[u16],
    count: usize,
    states: &[u8],
    periods: &[u16],
    phases: usize,
    fixed: &mut [u16],
    list: &mut [u32],
) -> usize {
    let mut used = 0;
    for j in 0..count {
        if let Some(clock) = clock_of(registers, states, periods, phases, j) {
            used = put_clock(file, clock, used, fixed, list);
        }
    }
    used
}
