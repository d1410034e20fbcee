// The outputs, phase by phase, behind the nodes.
ghost use Rattle.std.specs.Prelude.{◌≡◌, ◌+◌, ◌<◌, ◌≤◌, length};
ghost use Rattle.memory.specs.Lists.{join_below};
ghost use Rattle.netlist.specs.Limits.{most_folded_rows, most_phases};
ghost use Rattle.netlist.specs.FileFormat.{netlist_of};
ghost use Rattle.netlist.specs.WellFormed.{FoldableRows};
ghost use Rattle.blockfile.specs.Appending.{Appended};
ghost use Rattle.blockfile.specs.Ready.{Ready};
ghost use Rattle.unrolling.specs.UnrollMap.{Room, output_at, outputs_in};

use blockfile::Fields;

// The output of row i in phase k, if the row is one, behind the m rows in `result`; answers the row count.
fn output_row(file: &[u8], res: &mut [u8], work: &[u8], k: usize, i: usize, m: usize) -> usize
    requires ready { Ready FoldableRows file.now (length (netlist_of file.now)) × (i < length (netlist_of file.now)) × (k < most_phases) }
    requires room { Room res.old work.now }
    requires i_bound { m + length (output_at (netlist_of file.now) work.now k i) ≤ most_folded_rows }
    ensures { Appended (output_at (netlist_of file.now) work.now k i) res.old res.new m result }
{
    let offset = blockfile::row_offset(i);
    let kind = file[offset];
    if kind != 6 {
        return m;
    }
    let at_label = offset + 4;
    let label = blockfile::field_at(file, at_label);
    let image = row_images::image_at(work, k, i) as usize;
    let row = Fields {
        kind: 6,
        reset: 0,
        a: image,
        b: label,
        c: k,
    };
    blockfile::append::append_row(res, m, row)
}

// The outputs of phase k.
fn output_phase(
    file: &[u8],
    rows: usize,
    res: &mut [u8],
    work: &[u8],
    k: usize,
    count: usize,
) -> usize
    requires ready { Ready FoldableRows file.now (length (netlist_of file.now)) × (rows ≡ length (netlist_of file.now)) × (k < most_phases) }
    requires room { Room res.old work.now }
    requires k_bound { count + length (outputs_in (netlist_of file.now) work.now k) ≤ most_folded_rows }
    ensures { Appended (outputs_in (netlist_of file.now) work.now k) res.old res.new count result }
{
    let mut m = count;
    for i in 0..rows {
        m = output_row(file, res, work, k, i, m);
    }
    m
}

// The outputs, phase by phase.
pub fn output_phases(
    file: &[u8],
    rows: usize,
    phases: usize,
    res: &mut [u8],
    work: &[u8],
    count: usize,
) -> usize
    requires ready { Ready FoldableRows file.now (length (netlist_of file.now)) × (rows ≡ length (netlist_of file.now)) × (phases ≤ most_phases) }
    requires room { Room res.old work.now }
    requires work_bound { count + length (join_below phases (outputs_in (netlist_of file.now) work.now)) ≤ most_folded_rows }
    ensures { Appended (join_below phases (outputs_in (netlist_of file.now) work.now)) res.old res.new count result }
{
    let mut m = count;
    for k in 0..phases {
        m = output_phase(file, rows, res, work, k, m);
    }
    m
}
