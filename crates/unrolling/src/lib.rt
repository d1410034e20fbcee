// The unrolling into N phases, before the cone of influence is taken: the new rows stand in `result` where a file has them, and the image literal of each original row in each phase in `work`.
#![tactic(auto)]

ghost use Rattle.std.specs.Prelude.{◌≡◌, ℕ, ◌<◌, ◌≤◌, length};
ghost use Rattle.memory.specs.Frames.{KeptOutside};
ghost use Rattle.ternary.specs.Ternary.{Ternary};
ghost use Rattle.netlist.specs.Limits.{most_phases};
ghost use Rattle.netlist.specs.FileFormat.{netlist_of};
ghost use Rattle.netlist.specs.WellFormed.{FoldableRows};
ghost use Rattle.abstraction.specs.Unrolling.{unrolled_netlist};
ghost use Rattle.blockfile.specs.RowsStand.{RowsStand};
ghost use Rattle.blockfile.specs.Ready.{Ready};
ghost use Rattle.fold_memory.specs.WorkMap.{known_in};
ghost use Rattle.unrolling.specs.UnrollMap.{Room, images_end};

pub mod nexts;
pub mod outputs;
pub mod phases;

// The unrolled netlist of `phases` phases; answers its row count. Registers are made in phase 0 only, so none stands behind the first `rows` rows.
pub fn unroll(file: &[u8], rows: usize, phases: usize, res: &mut [u8], work: &mut [u8]) -> usize
    requires ready { Ready FoldableRows file.now (length (netlist_of file.now)) × (rows ≡ length (netlist_of file.now)) × (1 ≤ phases) × (phases ≤ most_phases) }
    requires room { Room res.old work.old }
    ensures by_index { (clock : ℕ → ℕ → Ternary) → ((i k : ℕ) → i < rows → k < phases → known_in work.old i k ≡ clock i k) → (result ≡ length (unrolled_netlist clock (netlist_of file.now) phases)) × RowsStand (unrolled_netlist clock (netlist_of file.now) phases) res.new }
    ensures kept_outside { KeptOutside 0 images_end work.old work.new }
{
    let made = phases::unroll_phases(file, rows, phases, res, work);
    let last = phases - 1;
    let patched = made.min(rows);
    nexts::patch_rows(res, work, last, patched);
    outputs::output_phases(file, rows, phases, res, work, made)
}
