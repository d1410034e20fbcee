// Show: a block's row part, in the caller's own file.
#![tactic(auto)]

ghost use Rattle.show.specs.ShowOutcome.{Shown};

use questions::Numbered;

// The row part of a block, in the caller's own file.
pub fn show<'a>(file: &'a [u8], block: u32, number: &mut u32, place: &mut u32) -> &'a [u8]
    ensures { Shown file.now file.entry.ref_ptr block result.now result.ref_ptr number.new place.new }
{
    match accept::accept(file) {
        Ok(_) => {
            let blocks = file.len() / 512;
            let index = block as usize;
            if index < blocks {
                *number = 0;
                *place = 0;
                let start = 512 * index + 4;
                let end = start + 504;
                &file[start..end]
            } else {
                *number = 21;
                *place = 0;
                &file[0..0]
            }
        }
        Err(refusal) => {
            *number = refusal.number();
            *place = refusal.place();
            &file[0..0]
        }
    }
}
