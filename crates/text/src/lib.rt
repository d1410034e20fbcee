// Text for programs: bytes of a slice, numbers in decimal, buffered output, files read whole.
#![tactic(auto)]

pub mod args;
pub mod bytes;
pub mod causes;
pub mod files;
pub mod numbers;
pub mod out;
pub mod rooms;
pub mod streams;
mod words;
