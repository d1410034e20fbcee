// A call of pf: what it reads and writes. Where its result goes to standard output, what it prints goes to standard error.
// Once nobody reads what it writes, it writes nothing more, as if it had been ended by that.
use std::cell::Cell;
use std::io::{ErrorKind, Print};
use text::streams::{ERRORS, OUTPUT, Streams};

#[derive(Drop)]
pub struct Call {
    pub host: HostRuntime,
    pub keeps_on_output: bool,
    pub unread: Cell<bool>,
}

impl Call {
    // Writes all bytes to standard output, or else to standard error; whether that went well.
    pub fn write_on(&self, fd: i32, bytes: &[u8]) -> bool {
        if self.unread.get() {
            return false;
        }
        let written = match fd {
            OUTPUT => Print::write_all(&self.host.stdout(), bytes),
            _ => Print::write_all(&self.host.stderr(), bytes),
        };
        match written {
            Ok(()) => true,
            Err(cause) => {
                self.unread.set(cause.kind() == ErrorKind::BrokenPipe);
                false
            }
        }
    }
}

impl Streams for Call {
    fn write_to(&self, fd: i32, bytes: &[u8]) -> bool {
        let to = match fd {
            OUTPUT if self.keeps_on_output => ERRORS,
            _ => fd,
        };
        self.write_on(to, bytes)
    }
}
