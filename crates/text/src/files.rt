// A file read into lent memory.
ghost use Rattle.std.specs.Prelude.{◌≡◌, ◌≤◌, length};

use std::fs;
use std::fs::Files;
use std::io::{Error, Input, Read};
use std::str::from_utf8;

// The system's number of the error that bytes are no text.
const NO_TEXT: i32 = 84;

// Room for a long text.
pub fn long_room() -> [u8; 1048576]
    ensures { 1048576 ≡ length result }
{
    [0; 1048576]
}

// What was read: how many bytes, and whether there are more, for which the room is too small.
#[derive(Clone, Copy, Debug, PartialEq, Eq)]
pub struct Loaded {
    pub size: usize,
    pub longer: bool,
}

// The room is full: one byte more is asked for, to see whether that was all.
fn is_longer<F: Read>(file: &mut F) -> Result<bool, Error> {
    let mut probe = [0u8; 1];
    Ok(file.read(&mut probe)? > 0)
}

// Reads behind the first `size` bytes until the room is full or the file ends, and counts what was read.
fn fill<F: Read>(file: &mut F, room: &mut [u8], size: &mut usize) -> Result<(), Error>
    requires { size.old ≤ length room.old }
    ensures same_room { length room.new ≡ length room.old }
    ensures within { size.new ≤ length room.new }
{
    while *size < room.len() {
        let got = file.read(&mut room[*size..])?;
        if got == 0 {
            break;
        }
        *size += got;
    }
    Ok(())
}

// Reads the file to its end, or until the room is full.
pub fn load_from<F: Read>(file: &mut F, room: &mut [u8]) -> Result<Loaded, Error> {
    let mut size = 0;
    fill(file, room, &mut size)?;
    let longer = size == room.len() && is_longer(file)?;
    Ok(Loaded { size, longer })
}

// Reads until the room is full, the file ends or a read fails; how many bytes it put at the start of the room.
pub fn read_full<F: Read>(file: &mut F, room: &mut [u8]) -> usize
    ensures { result ≤ length room.new }
{
    let mut size = 0;
    let _ = fill(file, room, &mut size);
    size
}

// The named file's bytes at the start of the room.
fn load_named<R: Files>(rt: &R, name: &str, room: &mut [u8]) -> Result<Loaded, Error> {
    let mut file = fs::open(rt, name)?;
    load_from(&mut file, room)
}

// The file's bytes at the start of the room; the path - is standard input. A name that is no text cannot be opened.
pub fn load<R: Files + Input>(rt: &R, path: &[u8], room: &mut [u8]) -> Result<Loaded, Error> {
    if path == b"-".as_slice() {
        return load_from(&mut rt.reader(), room);
    }
    match from_utf8(path) {
        Err(_) => Err(Error::from_raw_os_error(NO_TEXT)),
        Ok(name) => load_named(rt, name, room),
    }
}
