// The line of a refusal.
use text::out::{Out, put_filled, two};
use text::streams::Streams;

// A refusal's number and place by the scope paper.
pub fn put_refusal(rt: &impl Streams, buffer: &mut [u8], out: Out, number: u32, place: u32) -> Out {
    let numbers = two(number as usize, place as usize);
    put_filled(rt, buffer, out, b"refused # #\n", numbers)
}
