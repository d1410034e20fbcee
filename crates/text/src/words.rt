// A short text that is made by std's formats; what has no room is left out.
use crate::bytes::first;
use std::fmt;
use std::fmt::Write;

#[derive(Drop)]
pub struct Words {
    bytes: [u8; 256],
    size: usize,
}

impl Words {
    pub fn new() -> Words {
        Words {
            bytes: [0; 256],
            size: 0,
        }
    }

    pub fn text(&self) -> &[u8] {
        first(&self.bytes, self.size)
    }
}

impl Write for Words {
    fn write_str(&mut self, more: &str) -> fmt::Result {
        for &byte in more.as_bytes() {
            if self.size < 256 {
                self.bytes[self.size] = byte;
                self.size += 1;
            }
        }
        Ok(())
    }
}
