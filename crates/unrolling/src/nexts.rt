// The new registers' next values: each becomes its image in the last phase.
ghost use Rattle.std.specs.Prelude.{ℕ, suc, ◌<◌, ◌≤◌};
ghost use Rattle.netlist.specs.Limits.{most_folded_rows, most_phases};
ghost use Rattle.unrolling.specs.UnrollMap.{Room, NextFits, NextsPatched};

// Row j of `result`, if it is a register, takes the image of its next value in phase k.
fn patch_row(res: &mut [u8], work: &[u8], k: usize, j: usize)
    requires k_lt_most_phases { (k < most_phases) × (j < most_folded_rows) × NextFits j res.old }
    requires room { Room res.old work.now }
    ensures { NextsPatched work.now k j (suc j) res.old res.new }
{
    let offset = blockfile::row_offset(j);
    let kind = res[offset];
    if kind == 2 {
        let at_next = offset + 2;
        let next = blockfile::field_at(res, at_next);
        let image = row_images::literal_image(work, k, next);
        memory::write_u16(res, at_next, image as u32);
    }
}

// Each register among the first n rows does so.
pub fn patch_rows(res: &mut [u8], work: &[u8], k: usize, n: usize)
    requires k_lt_most_phases { (k < most_phases) × (n ≤ most_folded_rows) × ((j : ℕ) → j < n → NextFits j res.old) }
    requires room { Room res.old work.now }
    ensures { NextsPatched work.now k 0 n res.old res.new }
{
    for j in 0..n {
        patch_row(res, work, k, j);
    }
}
