// The phases: the images of all rows are stored, row by row and phase by phase.
ghost use Rattle.std.specs.Prelude.{◌≡◌, suc, ◌<◌, ◌≤◌, length};
ghost use Rattle.memory.specs.Frames.{KeptOutside};
ghost use Rattle.netlist.specs.Limits.{most_folded_rows, most_phases, most_original_rows};
ghost use Rattle.netlist.specs.FileFormat.{netlist_of};
ghost use Rattle.netlist.specs.WellFormed.{FoldableRows};
ghost use Rattle.blockfile.specs.Ready.{Ready};
ghost use Rattle.fold_memory.specs.WorkMap.{known_in};
ghost use Rattle.row_images.specs.ImageMap.{image_offset};
ghost use Rattle.unrolling.specs.UnrollMap.{Room, images_end, ImageStored, UnderWay};

use blockfile::Fields;
use gates::MadeImage;

// Appends an image's row, if it is a new one, to the m rows in `result`, and writes its literal; answers the row count.
fn store_image(
    res: &mut [u8],
    work: &mut [u8],
    k: usize,
    i: usize,
    m: usize,
    image: MadeImage,
) -> usize
    requires k_lt_most_phases { (k < most_phases) × (i < most_original_rows) × (m < most_folded_rows) }
    requires room { Room res.old work.old }
    ensures { ImageStored image m (image_offset k i) res.old work.old res.new work.new result }
{
    let offset = row_images::image_offset(k, i);
    match image {
        MadeImage::Existing(l) => {
            memory::write_u16(work, offset, l as u32);
            m
        }
        MadeImage::NewRow(x, complemented) => {
            let fields = Fields {
                kind: x.kind,
                reset: x.reset,
                a: x.a as usize,
                b: x.b as usize,
                c: x.c as usize,
            };
            let count = blockfile::append::append_row(res, m, fields);
            let literal = 2 * m + complemented as usize;
            memory::write_u16(work, offset, literal as u32);
            count
        }
    }
}

// Row i in phase k.
fn unroll_row(file: &[u8], res: &mut [u8], work: &mut [u8], k: usize, i: usize, m: usize) -> usize
    requires ready { Ready FoldableRows file.now (length (netlist_of file.now)) × (i < length (netlist_of file.now)) × (k < most_phases) }
    requires room { Room res.old work.old }
    requires under_way { UnderWay (known_in work.old) (netlist_of file.now) k i res.old work.old m }
    ensures { UnderWay (known_in work.old) (netlist_of file.now) k (suc i) res.new work.new result × KeptOutside 0 images_end work.old work.new }
{
    let image = row_images::row_image(file, work, k, i);
    store_image(res, work, k, i, m, image)
}

// Phase k: the images of all rows; answers the row count.
fn unroll_phase(
    file: &[u8],
    rows: usize,
    res: &mut [u8],
    work: &mut [u8],
    k: usize,
    count: usize,
) -> usize
    requires ready { Ready FoldableRows file.now (length (netlist_of file.now)) × (rows ≡ length (netlist_of file.now)) × (k < most_phases) }
    requires room { Room res.old work.old }
    requires under_way { UnderWay (known_in work.old) (netlist_of file.now) k 0 res.old work.old count }
    ensures { UnderWay (known_in work.old) (netlist_of file.now) (suc k) 0 res.new work.new result × KeptOutside 0 images_end work.old work.new }
{
    let mut m = count;
    for i in 0..rows {
        m = unroll_row(file, res, work, k, i, m);
    }
    m
}

// Row 0, and the phases 0 to phases - 1; answers the row count.
pub fn unroll_phases(
    file: &[u8],
    rows: usize,
    phases: usize,
    res: &mut [u8],
    work: &mut [u8],
) -> usize
    requires ready { Ready FoldableRows file.now (length (netlist_of file.now)) × (rows ≡ length (netlist_of file.now)) × (phases ≤ most_phases) }
    requires room { Room res.old work.old }
    ensures { UnderWay (known_in work.old) (netlist_of file.now) phases 0 res.new work.new result × KeptOutside 0 images_end work.old work.new }
{
    let first = Fields {
        kind: 0,
        reset: 0,
        a: 0,
        b: 0,
        c: 0,
    };
    let mut m = blockfile::append::append_row(res, 0, first);
    for k in 0..phases {
        m = unroll_phase(file, rows, res, work, k, m);
    }
    m
}
