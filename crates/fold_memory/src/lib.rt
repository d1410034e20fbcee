// Fold's lent work memory: where each stage's bytes begin, as specs/WorkMap.antt defines it.
#![tactic(auto)]

ghost use Rattle.std.specs.Prelude.{◌≡◌, ◌≤◌};
ghost use Rattle.netlist.specs.Limits.{last_state};
ghost use Rattle.fold_memory.specs.WorkMap.{state_offset};

use netlist::{
    FOLD_CLOCK_ENTRIES, FOLD_WORK_BYTES, MOST_FOLDED_ROWS, MOST_ORIGINAL_REGISTERS,
    MOST_ORIGINAL_ROWS,
};

// ---- the lasso

// A byte for each row: its value, later its period.
pub const VALUES: usize = 0;

// Two bytes for each register: its next-value literal.
pub const NEXTS: usize = VALUES + MOST_ORIGINAL_ROWS;

// The states, two bits for each register.
pub const STATES: usize = NEXTS + 2 * MOST_ORIGINAL_REGISTERS;

pub const STATE_BYTES: usize = MOST_ORIGINAL_REGISTERS / 4;

// The byte at which state t starts.
pub fn state_offset(t: usize) -> usize
    requires { t ≤ last_state }
    ensures { result ≡ state_offset t }
{
    STATES + STATE_BYTES * t
}

// ---- the unrolling

// The images start the memory, two bytes for each row in each phase.
pub const PHASE_BYTES: usize = 2 * MOST_ORIGINAL_ROWS;

// ---- the compaction

// Two bytes for each row made.
pub const SLOTS: usize = 16384;

pub const SLOTS_END: usize = SLOTS + 2 * MOST_FOLDED_ROWS;

// ---- from the lasso on

// Two bytes for each row: what is known of it in the phases.
pub const KNOWN: usize = FOLD_WORK_BYTES - 2 * MOST_ORIGINAL_ROWS;

// Eight bytes for each clock entry.
pub const ENTRIES: usize = KNOWN - 8 * FOLD_CLOCK_ENTRIES;
