// Count: how many rows of each sort a netlist has.
#![tactic(auto)]

ghost use Rattle.count.specs.CountOutcome.{Counted};

use accept::FileRefusal;
use blockfile::count::Counts;

pub fn count(file: &[u8]) -> Result<Counts, FileRefusal>
    ensures { Counted file.now result }
{
    let accepted = accept::accept(file)?;
    Ok(accepted.counts)
}
