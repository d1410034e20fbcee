// What is known of each row in each phase.
ghost use Rattle.std.specs.Prelude.{◌≡◌, [], ◌∷◌, ◌+◌, ◌*◌, ◌<◌, ◌≤◌, ◌^◌, length};
ghost use Rattle.std.proofs.lemmas.List.Edits.{sets};
ghost use Rattle.memory.specs.Frames.{KeptOutside};
ghost use Rattle.netlist.specs.Limits.{most_phases, most_original_rows, fold_work_bytes};
ghost use Rattle.netlist.specs.FileFormat.{netlist_of};
ghost use Rattle.netlist.specs.WellFormed.{FoldableRows};
ghost use Rattle.lasso.specs.ClockEntries.{clock_word};
ghost use Rattle.blockfile.specs.Ready.{Ready};
ghost use Rattle.ternary_step.specs.StateMap.{registers_before, AtRow};
ghost use Rattle.period_finder.specs.PeriodStage.{PeriodPart};
ghost use Rattle.fold_memory.specs.WorkMap.{known_offset};
ghost use Rattle.clock_words.specs.KnownStage.{WordReady, phase_value, KnownPart};

use fold_memory::{KNOWN, VALUES};

// A code 0 or 1 as bit k.
fn bit_at(code: u8, k: usize) -> usize
    requires { (code < 2) × (k < most_phases) }
    ensures { (result ≡ code * 2 ^ k) × (result ≤ 2 ^ k) }
{
    (code as usize) << k
}

// The word of register j, whose period is `period`: bit k is its value in phase k.
fn clock_word(work: &[u8], j: usize, period: usize, phases: usize) -> u8
    requires { WordReady work.now j period phases }
    ensures { result ≡ clock_word (phase_value work.now j period) phases }
{
    let mut word = 0;
    for k in 0..phases {
        let t = k % period;
        let base = fold_memory::state_offset(t);
        let code = ternary_step::register_code(work, base, j);
        word += bit_at(code, k);
    }
    word as u8
}

// Puts the two bytes of a row.
fn put_known(work: &mut [u8], row: usize, period: u8, word: u8)
    requires { (row < most_original_rows) × (fold_work_bytes ≤ length work.old) }
    ensures { work.new ≡ sets work.old (known_offset row) (period ∷ word ∷ []) }
{
    let first = KNOWN + 2 * row;
    let second = first + 1;
    work[first] = period;
    work[second] = word;
}

// Puts what is known of the row; answers the number of registers up to it.
fn known_row(
    file: &[u8],
    rows: usize,
    row: usize,
    j: usize,
    work: &mut [u8],
    phases: usize,
) -> usize
    requires at_row { AtRow file.now rows row j }
    requires le_phases { (1 ≤ phases) × ((phases ≤ most_phases) × KnownPart (netlist_of file.now) phases work.old row) }
    ensures { (result ≡ registers_before (netlist_of file.now) (row + 1)) × (KeptOutside (known_offset 0) (known_offset most_original_rows) work.old work.new × KnownPart (netlist_of file.now) phases work.new (row + 1)) }
{
    let fields = blockfile::read_row(file, row);
    let next = ternary_step::count_register(fields.kind, j);
    let offset = VALUES + row;
    let period = work[offset];
    let p = period as usize;
    if period_finder::is_used(phases, p) {
        let word = clock_word(work, j, p, phases);
        put_known(work, row, period, word);
        return next;
    }
    put_known(work, row, 0, 0);
    next
}

// Puts what is known of every row.
pub fn find_known(file: &[u8], rows: usize, work: &mut [u8], phases: usize)
    requires ready { Ready FoldableRows file.now rows }
    requires le_phases { (1 ≤ phases) × ((phases ≤ most_phases) × PeriodPart (netlist_of file.now) work.old rows) }
    ensures { KeptOutside (known_offset 0) (known_offset most_original_rows) work.old work.new × KnownPart (netlist_of file.now) phases work.new rows }
{
    let mut j = 0;
    for i in 0..rows {
        j = known_row(file, rows, i, j, work, phases);
    }
}
