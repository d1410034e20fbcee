// The limits of specs/Limits.antt, as code has them.
#![tactic(auto)]

ghost use Rattle.std.specs.Prelude.{◌≡◌};
ghost use Rattle.netlist.specs.Limits.{row_work_bytes};

// A file's bytes and rows.
pub const MOST_FILE_BYTES: usize = 262144;

pub const MOST_FILE_ROWS: usize = 32256;

// The phase count of a fold.
pub const MOST_PHASES: usize = 8;

// Rows and registers of a netlist that is folded, and the folded netlist's rows.
pub const MOST_ORIGINAL_ROWS: usize = 1008;

pub const MOST_ORIGINAL_REGISTERS: usize = 256;

pub const MOST_FOLDED_ROWS: usize = MOST_PHASES * MOST_ORIGINAL_ROWS;

// What Fold is lent.
pub const FOLD_RESULT_BYTES: usize = 65536;

pub const FOLD_WORK_BYTES: usize = 49152;

pub const FOLD_CLOCK_ENTRIES: usize = 256;

// The last state that is compared with the earlier ones.
pub const LAST_STATE: usize = 256;

// Run's steps.
pub const MOST_STEPS: usize = 4096;

// The groups of a trace that is taken back.
pub const MOST_GROUPS: u32 = 512;

// What Import is lent.
pub const IMPORT_RESULT_BYTES: usize = 262144;

pub const IMPORT_WORK_BYTES: usize = 196608;

// The most rows for which little work is enough, and the work of Run and Sort for more.
const SMALL_FILE_ROWS: usize = 8064;

pub const LARGE_WORK_BYTES: usize = 65536;

// The work of Run and Sort for a file of this many rows.
pub fn row_work(rows: usize) -> usize
    ensures { result ≡ row_work_bytes rows }
{
    if rows <= SMALL_FILE_ROWS {
        16384
    } else {
        LARGE_WORK_BYTES
    }
}
