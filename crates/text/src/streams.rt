// The streams that programs write to, by their descriptors.
use std::io::Print;

pub const OUTPUT: i32 = 1;

pub const ERRORS: i32 = 2;

pub trait Streams {
    // Writes all bytes to the stream; whether that went well.
    fn write_to(&self, fd: i32, bytes: &[u8]) -> bool;
}

// Standard output and standard error; no other descriptor takes a byte.
impl Streams for HostRuntime {
    fn write_to(&self, fd: i32, bytes: &[u8]) -> bool {
        match fd {
            OUTPUT => Print::write_all(&self.stdout(), bytes).is_ok(),
            ERRORS => Print::write_all(&self.stderr(), bytes).is_ok(),
            _ => false,
        }
    }
}

// For a text that is made in memory, with room for all of it.
#[derive(Clone, Copy)]
pub struct Nowhere;

impl Streams for Nowhere {
    fn write_to(&self, _fd: i32, _bytes: &[u8]) -> bool {
        false
    }
}
