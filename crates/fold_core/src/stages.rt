// The stages of the fold, in turn: lasso and clocks, unrolling, cone of influence, the written file.
ghost use Rattle.std.specs.Prelude.{◌≤◌, ◌≡◌, length};
ghost use Rattle.netlist.specs.Limits.{most_phases};
ghost use Rattle.netlist.specs.FileFormat.{netlist_of};
ghost use Rattle.netlist.specs.WellFormed.{FoldableRows};
ghost use Rattle.blockfile.specs.Ready.{Ready};
ghost use Rattle.unrolling.specs.UnrollMap.{Room};
ghost use Rattle.fold_core.specs.FoldParts.{FoldReady, FoldMade};
ghost use Rattle.fold_core.specs.FoldStages.{FoldWritten, NumbersFit, numbers_from};

use fold_answers::FoldNumbers;
use fold_refusals::FoldRefusal;
use lasso_finder::Clocks;

// The folded netlist's file in `result`; answers its row count.
fn write_fold(file: &[u8], rows: usize, phases: usize, res: &mut [u8], work: &mut [u8]) -> usize
    requires ready { Ready FoldableRows file.now (length (netlist_of file.now)) × (rows ≡ length (netlist_of file.now)) × (1 ≤ phases) × (phases ≤ most_phases) }
    requires room { Room res.old work.old }
    ensures { FoldWritten (netlist_of file.now) phases res.old res.new work.old work.new result }
{
    let made = unrolling::unroll(file, rows, phases, res, work);
    let kept = compaction::compact_rows(res, work, made);
    blocks::writer::write_file(res, kept);
    kept
}

// The answer's numbers.
fn numbers(clocks: Clocks, rows: usize, kept: usize) -> FoldNumbers
    requires { NumbersFit clocks rows kept }
    ensures { result ≡ numbers_from clocks rows kept }
{
    FoldNumbers {
        stem: clocks.stem as u32,
        cycle: clocks.cycle as u32,
        phases: clocks.phases as u32,
        used: clocks.used as u32,
        before: rows as u32,
        after: kept as u32,
    }
}

// The fold of a file that passed questions 1 to 15, in a cleared work memory; or refusal 16.
pub fn fold_passed(
    file: &[u8],
    rows: usize,
    wish: usize,
    res: &mut [u8],
    work: &mut [u8],
) -> Result<FoldNumbers, FoldRefusal>
    requires { FoldReady file.now rows wish res.old work.old }
    ensures { FoldMade file.now wish res.old res.new work.new result }
{
    let Some(clocks) = lasso_finder::analyse(file, rows, wish, work) else {
        return Err(FoldRefusal::NoLasso);
    };
    let after = write_fold(file, rows, clocks.phases, res, work);
    Ok(numbers(clocks, rows, after))
}
