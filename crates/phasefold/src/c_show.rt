// Show for callers in C.
ghost use Rattle.phasefold.specs.ForeignAnswers.{ShownFlat};

use c_answers::PfShown;

pub fn pf_show(file: &[u8], block: u32) -> PfShown
    ensures { ShownFlat file.now block result }
{
    let mut number = 0;
    let mut place = 0;
    let part = show::show(file, block, &mut number, &mut place);
    let size = part.len() as u32;
    let offset = c_answers::part_offset(number, block);
    PfShown {
        number,
        place,
        offset,
        size,
    }
}
