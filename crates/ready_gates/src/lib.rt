// The rows that can be placed next: their slots, of two bytes each, are READY. Behind the slots stands a mark for each group of 64 rows; a group without mark has no such row.
#![tactic(auto)]

ghost use Rattle.std.specs.Prelude.{◌≡◌, ◌+◌, ◌*◌, ◌^◌, ◌<◌, ◌≤◌};
ghost use Rattle.ready_gates.specs.ReadySlots.{first_ready, first_ready_from, group_end, ReadyRoom, ReadyMarked, SlotsKept, MadeReady};

pub const READY: usize = 1;

const GROUP: usize = 64;

// The first of rows `from` to `to` - 1 that is ready; `to` if none is.
fn first_ready(work: &[u8], rows: usize, from: usize, to: usize) -> usize
    requires { ReadyRoom rows work.now × ((from ≤ to) × (to ≤ rows)) }
    ensures { result ≡ first_ready_from work.now from to }
{
    for row in from..to {
        if memory::slot_at(work, row) == READY {
            return row;
        }
    }
    to
}

// Where the rows of the group end.
fn group_end(rows: usize, group: usize) -> usize
    requires { (64 * group < rows) × (rows < 2 ^ 63) }
    ensures { result ≡ group_end rows group }
{
    (GROUP * group + GROUP).min(rows)
}

// The first ready row in the groups from `start` on, where none is in those before; `rows` if there is none. The mark of a group that has none is cleared.
fn lowest_from(work: &mut [u8], rows: usize, start: usize) -> usize
    requires { ReadyMarked rows work.old (64 * start) × (64 * start < rows + 64) }
    ensures value { result ≡ first_ready rows work.old }
    ensures slots_kept { SlotsKept rows work.old work.new × ReadyMarked rows work.new (64 * start) }
{
    for group in start..rows.div_ceil(GROUP) {
        let mark = 2 * rows + group;
        if work[mark] != 0 {
            let first = GROUP * group;
            let end = group_end(rows, group);
            let row = first_ready(work, rows, first, end);
            if row < end {
                return row;
            }
            work[mark] = 0;
        }
    }
    rows
}

// The lowest ready row, where none below `low` is; `rows` if there is none.
pub fn lowest_ready(work: &mut [u8], rows: usize, low: usize) -> usize
    requires { ReadyMarked rows work.old low × (low < rows) }
    ensures value { result ≡ first_ready rows work.old }
    ensures slots_kept { SlotsKept rows work.old work.new × ReadyMarked rows work.new low }
{
    let group = low / GROUP;
    let end = group_end(rows, group);
    let row = first_ready(work, rows, low, end);
    if row < end {
        row
    } else {
        let following = group + 1;
        lowest_from(work, rows, following)
    }
}

// The row becomes ready; answers the lower of it and `low`, below which no row is ready.
pub fn make_ready(work: &mut [u8], rows: usize, row: usize, low: usize) -> usize
    requires { ReadyMarked rows work.old low × (row < rows) }
    ensures made_ready { MadeReady rows work.old row work.new }
    ensures ready_marked { ReadyMarked rows work.new result × (result ≤ low) }
{
    memory::set_slot(&mut *work, row, READY);
    let mark = 2 * rows + row / GROUP;
    work[mark] = 1;
    row.min(low)
}
