// The registers' periods and the phase count.
#![tactic(auto)]

ghost use Rattle.std.specs.Prelude.{◌≡◌, cond, ◌+◌, ◌<◌, ◌≤◌, eqb, length};
ghost use Rattle.memory.specs.Frames.{KeptOutside};
ghost use Rattle.netlist.specs.Limits.{most_phases, most_original_rows, most_original_registers, fold_work_bytes, last_state};
ghost use Rattle.netlist.specs.FileFormat.{netlist_of};
ghost use Rattle.netlist.specs.WellFormed.{FoldableRows};
ghost use Rattle.lasso.specs.Generators.{is_used, used_count, best_phase_count, phase_count};
ghost use Rattle.blockfile.specs.Ready.{Ready};
ghost use Rattle.ternary_step.specs.StateMap.{registers_before, AtRow};
ghost use Rattle.fold_memory.specs.WorkMap.{value_offset};
ghost use Rattle.period_finder.specs.PeriodStage.{lasso_in, Lassoed, holds_as, repeats_in, generator_in, period_in, PeriodPart, period_bytes};

use fold_memory::VALUES;
use netlist::MOST_PHASES;

// ---- periods

// Whether register j is known in state t, and holds what it holds in state u.
fn holds_as(work: &[u8], j: usize, t: usize, u: usize) -> bool
    requires { (t < last_state) × ((u < last_state) × ((j < most_original_registers) × (fold_work_bytes ≤ length work.now))) }
    ensures { result ≡ holds_as work.now j t u }
{
    let code = ternary_step::register_code(work, fold_memory::state_offset(t), j);
    let other = ternary_step::register_code(work, fold_memory::state_offset(u), j);
    code < 2 && code == other
}

// The remainder by p of the number after one whose remainder is u.
fn next_phase(u: usize, p: usize) -> usize
    requires { (u < p) × (p ≤ most_phases) }
    ensures { result ≡ cond (eqb (u + 1) p) 0 (u + 1) }
{
    if u + 1 == p {
        return 0;
    }
    u + 1
}

// Whether register j is known in states 0 to m - 1, and holds in state t what it holds in state t mod p.
fn repeats(work: &[u8], m: usize, j: usize, p: usize) -> bool
    requires m_le_last_state { (m ≤ last_state) × ((j < most_original_registers) × (fold_work_bytes ≤ length work.now)) }
    requires le_p { (1 ≤ p) × (p ≤ most_phases) }
    ensures { result ≡ repeats_in work.now m j p }
{
    let mut u = 0;
    for t in 0..m {
        if !holds_as(work, j, t, u) {
            return false;
        }
        u = next_phase(u, p);
    }
    true
}

// Whether register j has a generator of length p.
fn is_generator(work: &[u8], m: usize, cycle: usize, j: usize, p: usize) -> bool
    requires m_le_last_state { (m ≤ last_state) × ((j < most_original_registers) × (fold_work_bytes ≤ length work.now)) }
    requires le_p { (1 ≤ p) × (p ≤ most_phases) }
    ensures { result ≡ generator_in work.now m cycle j p }
{
    cycle % p == 0 && repeats(work, m, j, p)
}

// The period of register j, if it is 8 at most; else 0.
fn short_period(work: &[u8], m: usize, cycle: usize, j: usize) -> u8
    requires { (m ≤ last_state) × ((j < most_original_registers) × (fold_work_bytes ≤ length work.now)) }
    ensures { result ≡ period_in work.now m cycle j }
{
    for p in 1..=MOST_PHASES {
        if is_generator(work, m, cycle, j, p) {
            return p as u8;
        }
    }
    0
}

// Puts the period of the row in place of its value; answers the number of registers up to it.
fn period_row(
    file: &[u8],
    rows: usize,
    row: usize,
    j: usize,
    work: &mut [u8],
    m: usize,
    cycle: usize,
) -> usize
    requires at_row { AtRow file.now rows row j }
    requires m_value { (m ≡ (lasso_in (netlist_of file.now)).stem + (lasso_in (netlist_of file.now)).cycle) × ((cycle ≡ (lasso_in (netlist_of file.now)).cycle) × PeriodPart (netlist_of file.now) work.old row) }
    ensures { (result ≡ registers_before (netlist_of file.now) (row + 1)) × (KeptOutside (value_offset 0) (value_offset most_original_rows) work.old work.new × PeriodPart (netlist_of file.now) work.new (row + 1)) }
{
    let fields = blockfile::read_row(file, row);
    let offset = VALUES + row;
    if fields.kind == 2 {
        work[offset] = short_period(work, m, cycle, j);
        return j + 1;
    }
    work[offset] = 0;
    j
}

// Puts each row's period in place of its value: 0 if it has none, or none up to 8.
pub fn find_periods(file: &[u8], rows: usize, work: &mut [u8], stem: usize, cycle: usize)
    requires ready { Ready FoldableRows file.now rows }
    requires stem_value { (stem ≡ (lasso_in (netlist_of file.now)).stem) × ((cycle ≡ (lasso_in (netlist_of file.now)).cycle) × Lassoed (netlist_of file.now) work.old) }
    ensures { KeptOutside (value_offset 0) (value_offset most_original_rows) work.old work.new × PeriodPart (netlist_of file.now) work.new rows }
{
    let m = stem + cycle;
    let mut j = 0;
    for i in 0..rows {
        j = period_row(file, rows, i, j, work, m, cycle);
    }
}

// ---- the phase count

// Whether p is a period and divides n.
pub fn is_used(n: usize, p: usize) -> bool
    ensures { result ≡ is_used n p }
{
    p != 0 && n % p == 0
}

// How many of the rows' periods divide n.
fn count_used(work: &[u8], rows: usize, n: usize) -> usize
    requires { (rows ≤ most_original_rows) × (fold_work_bytes ≤ length work.now) }
    ensures { result ≡ used_count (period_bytes work.now rows) n }
{
    let mut used = 0;
    for i in 0..rows {
        let period = usize::from(work[VALUES + i]);
        if is_used(n, period) {
            used += 1;
        }
    }
    used
}

// The smallest number of 1 to 8 that the most periods divide.
fn best_phases(work: &[u8], rows: usize) -> usize
    requires { (rows ≤ most_original_rows) × (fold_work_bytes ≤ length work.now) }
    ensures { result ≡ best_phase_count (period_bytes work.now rows) most_phases }
{
    let mut best = 1;
    let mut most = count_used(work, rows, 1);
    for n in 2..=MOST_PHASES {
        let used = count_used(work, rows, n);
        if most < used {
            best = n;
            most = used;
        }
    }
    best
}

// The phase count: the wish, or the best for wish 0.
pub fn phase_count(work: &[u8], rows: usize, wish: usize) -> usize
    requires { (rows ≤ most_original_rows) × (fold_work_bytes ≤ length work.now) }
    ensures { result ≡ phase_count wish (period_bytes work.now rows) }
{
    if wish == 0 {
        return best_phases(work, rows);
    }
    wish
}
