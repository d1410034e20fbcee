// The lasso, the registers' periods, the phase count and the clocks of a netlist, in the lent work memory.
#![tactic(auto)]

ghost use Rattle.std.specs.Prelude.{◌≤◌};
ghost use Rattle.netlist.specs.Limits.{most_phases};
ghost use Rattle.netlist.specs.FileFormat.{netlist_of};
ghost use Rattle.netlist.specs.WellFormed.{FoldableRows};
ghost use Rattle.blockfile.specs.Ready.{Ready};
ghost use Rattle.ternary_step.specs.StateMap.{ClearedWork};
ghost use Rattle.lasso_finder.specs.Outcome.{Analysed};

// The lasso's stem and cycle, the phase count, and the number of used generators.
#[derive(Clone, Copy)]
pub struct Clocks {
    pub stem: usize,
    pub cycle: usize,
    pub phases: usize,
    pub used: usize,
}

// Then `work` has what is known of each row in each phase, and the clock entries; none if there is no lasso.
pub fn analyse(file: &[u8], rows: usize, wish: usize, work: &mut [u8]) -> Option<Clocks>
    requires ready { Ready FoldableRows file.now rows }
    requires wish_le_most_phases { (wish ≤ most_phases) × ClearedWork work.old }
    ensures { Analysed (netlist_of file.now) wish work.old work.new result }
{
    let lasso = lasso_search::find_lasso(file, rows, work)?;
    period_finder::find_periods(file, rows, work, lasso.stem, lasso.cycle);
    let phases = period_finder::phase_count(work, rows, wish);
    clock_words::known::find_known(file, rows, work, phases);
    let used = clock_words::entries::put_entries(file, rows, work);
    Some(Clocks {
        stem: lasso.stem,
        cycle: lasso.cycle,
        phases,
        used,
    })
}
