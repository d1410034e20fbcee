// A result kept in a file. The script opens two descriptors for it: what stands at the result's name, or nothing if there is no file yet; and the file that then takes its place, which is empty. Both are opened again by their names here. A result for standard output goes there itself, behind what others have written.
use crate::block_causes::is_first_block;
use crate::calls::Call;
use crate::outcome::{Outcome, fail_at, fail_by_cause, outcome_if};
use std::fs::{Files, OpenFile, OpenOptions};
use std::io::Write;
use std::{fs, io};
use text::bytes::{first, same};
use text::files::load;
use text::streams::OUTPUT;

const OLD: &[u8] = b"/proc/self/fd/5";

const NEW: &str = "/proc/self/fd/6";

const PRINTED: &str = "/proc/self/fd/1";

// The system's number of the error that what is no plain file is on no device.
const NO_DEVICE: i32 = 22;

// All bytes are on their device then; what is no plain file has none.
fn synced<F: OpenFile>(file: &F) -> io::Result<()> {
    match file.sync_all() {
        Ok(()) => Ok(()),
        Err(cause) if cause.raw_os_error() == Some(NO_DEVICE) => Ok(()),
        Err(cause) => Err(cause),
    }
}

// The result is written.
fn write_new<R: Files>(rt: &R, bytes: &[u8]) -> io::Result<()> {
    let mut file = OpenOptions::new().write(true).open(rt, NEW)?;
    file.write_all(bytes)?;
    synced(&file)
}

// The result is written to standard output, and put on its device if that is a plain file which this process may open; or it is written to its file. A failure is told with the result's name.
// No other output is opened again: that of a pipe which nobody reads any more would wait for a reader.
fn save_new(rt: &Call, path: &[u8], bytes: &[u8]) -> Outcome {
    if same(path, b"-") {
        let written = rt.write_on(OUTPUT, bytes);
        let kept = match fs::metadata(&rt.host, PRINTED) {
            Ok(found) if found.is_file() => {
                match OpenOptions::new().write(true).open(&rt.host, PRINTED) {
                    Ok(file) => synced(&file).is_ok(),
                    Err(_) => true,
                }
            }
            _ => true,
        };
        return outcome_if(rt, written && kept);
    }
    match write_new(&rt.host, bytes) {
        Ok(()) => Ok(()),
        Err(cause) => Err(fail_by_cause(rt, path, cause)),
    }
}

// Only an empty file, or one that begins as a netlist file does, is replaced.
fn save_over(rt: &Call, path: &[u8], old: &[u8], bytes: &[u8]) -> Outcome {
    if old.is_empty() || is_first_block(old) {
        return save_new(rt, path, bytes);
    }
    Err(fail_at(
        rt,
        path,
        b"is no netlist file, and is not replaced by one\n",
    ))
}

// The bytes become the file at `path`, if what stands there may be replaced.
pub fn save(rt: &Call, path: &[u8], bytes: &[u8]) -> Outcome {
    let mut room = [0u8; 512];
    match load(&rt.host, OLD, &mut room) {
        Ok(loaded) => save_over(rt, path, first(&room, loaded.size), bytes),
        Err(cause) => Err(fail_by_cause(rt, path, cause)),
    }
}
