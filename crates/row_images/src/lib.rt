// The image of one row in one phase, from the images and the known values that stand in `work`.
#![tactic(auto)]

ghost use Rattle.std.specs.Prelude.{◌≡◌, ℕ, ◌-◌, ◌/◌, ◌<◌, ◌≤◌, length};
ghost use Rattle.memory.specs.Fields.{u16_at};
ghost use Rattle.ternary.specs.Ternary.{X};
ghost use Rattle.netlist.specs.Limits.{most_phases, most_original_rows, fold_work_bytes};
ghost use Rattle.netlist.specs.Rows.{row_at, input};
ghost use Rattle.netlist.specs.FileFormat.{read_fields, netlist_of};
ghost use Rattle.abstraction.specs.GateMaking.{new_row};
ghost use Rattle.abstraction.specs.Unrolling.{image_literal, register_image, row_image};
ghost use Rattle.blockfile.specs.RowCode.{Small, if_known};
ghost use Rattle.gates.specs.declared.MadeImage.TheVariants.{Existing};
ghost use Rattle.gates.specs.ImageCode.{image_code};
ghost use Rattle.fold_memory.specs.WorkMap.{known_in};
ghost use Rattle.row_images.specs.ImageMap.{image_offset, images_in, no_literal, RowToFold};

use blockfile::Fields;
use fold_memory::{KNOWN, PHASE_BYTES};
use gates::{MadeImage, MadeRow};

// A literal that names no row: the answer for a row of an unknown kind, which no accepted file has.
const NO_LITERAL: u16 = 65535;

// Where the image of row i in phase k stands.
pub fn image_offset(k: usize, i: usize) -> usize
    requires { (k < most_phases) × (i < most_original_rows) }
    ensures { result ≡ image_offset k i }
{
    PHASE_BYTES * k + 2 * i
}

// The image of row i in phase k, which is there.
pub fn image_at(work: &[u8], k: usize, i: usize) -> u16
    requires { (k < most_phases) × (i < most_original_rows) × (fold_work_bytes ≤ length work.now) }
    ensures { result ≡ u16_at work.now (image_offset k i) }
{
    let offset = image_offset(k, i);
    memory::read_u16(work, offset) as u16
}

// The image of the literal l in phase k.
pub fn literal_image(work: &[u8], k: usize, l: usize) -> u16
    requires { (k < most_phases) × (l / 2 < most_original_rows) × (fold_work_bytes ≤ length work.now) }
    ensures { (n : ℕ) → l / 2 < n → result ≡ image_literal (images_in work.now k n) l }
{
    let image = image_at(work, k, l / 2);
    if l % 2 == 0 {
        image
    } else {
        gates::complement(image)
    }
}

// A new input.
fn input_image(x: Fields, k: usize) -> MadeImage
    requires { Small x × (k < most_phases) }
    ensures { result ≡ image_code (new_row (input x.a k) 0) }
{
    let label = x.a as u16;
    let phase = k as u16;
    MadeImage::NewRow(
        MadeRow {
            kind: 1,
            reset: 0,
            a: label,
            b: phase,
            c: 0,
        },
        0,
    )
}

// The image of a register of which nothing is known.
fn open_register(work: &[u8], x: Fields, k: usize) -> MadeImage
    requires { Small x × (k < most_phases) × (x.a / 2 < most_original_rows) × (fold_work_bytes ≤ length work.now) }
    ensures { (n : ℕ) → x.a / 2 < n → result ≡ image_code (register_image X k (images_in work.now (k - 1) n) x.reset x.a x.b) }
{
    if k == 0 {
        let next = x.a as u16;
        let label = x.b as u16;
        MadeImage::NewRow(
            MadeRow {
                kind: 2,
                reset: x.reset,
                a: next,
                b: label,
                c: 0,
            },
            0,
        )
    } else {
        MadeImage::Existing(literal_image(work, k - 1, x.a))
    }
}

// The image of a register, row i.
fn register_image(work: &[u8], x: Fields, k: usize, i: usize) -> MadeImage
    requires { Small x × (k < most_phases) × (i < most_original_rows) × (x.a / 2 < most_original_rows) × (fold_work_bytes ≤ length work.now) }
    ensures { (n : ℕ) → x.a / 2 < n → result ≡ image_code (register_image (known_in work.now i k) k (images_in work.now (k - 1) n) x.reset x.a x.b) }
{
    let offset = KNOWN + 2 * i;
    let second = offset + 1;
    if work[offset] == 0 {
        return open_register(work, x, k);
    }
    let later = work[second] >> k;
    let bit = (later % 2) as u16;
    MadeImage::Existing(bit)
}

// The image of row i in phase k, worked out; one that names no row if the kind is unknown.
pub fn row_image(file: &[u8], work: &[u8], k: usize, i: usize) -> MadeImage
    requires row_to_fold { RowToFold file.now i }
    requires k_lt_most_phases { (k < most_phases) × (fold_work_bytes ≤ length work.now) }
    ensures { result ≡ if_known (read_fields file.now i).kind (image_code (row_image (known_in work.now i k) k (images_in work.now (k - 1) (length (netlist_of file.now))) (images_in work.now k i) (row_at (netlist_of file.now) i))) (Existing no_literal) }
{
    let x = blockfile::read_row(file, i);
    let kind = x.kind;
    match kind {
        0 => MadeImage::Existing(0),
        1 => input_image(x, k),
        2 => register_image(work, x, k, i),
        3 => gates::make_and(literal_image(work, k, x.a), literal_image(work, k, x.b)),
        4 => gates::make_xor(literal_image(work, k, x.a), literal_image(work, k, x.b)),
        5 => gates::make_mux(
            literal_image(work, k, x.a),
            literal_image(work, k, x.b),
            literal_image(work, k, x.c),
        ),
        6 => MadeImage::Existing(literal_image(work, k, x.a)),
        7..=255 => return MadeImage::Existing(NO_LITERAL),
    }
}
