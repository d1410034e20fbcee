// The words that the program is called with; word 0 is its own name.
ghost use Rattle.std.specs.Prelude.{◌≤◌, length};

use std::env::{Env, FillError};

// Puts the word at the start of the room, and returns its length; 0 where there is no such word, or no room for all of it.
pub fn arg(rt: &impl Env, index: usize, room: &mut [u8]) -> usize
    ensures { result ≤ length room.new }
{
    match rt.arg(index, room) {
        Ok(size) => size,
        Err(_) => 0,
    }
}

// Whether there is such a word, and no room for all of it.
pub fn is_too_long(rt: &impl Env, index: usize, room: &mut [u8]) -> bool {
    matches!(rt.arg(index, room), Err(FillError::TooLong))
}

// Whether there is such a word, however long.
fn is_there(rt: &impl Env, index: usize) -> bool {
    let mut room = [0u8; 1];
    !matches!(rt.arg(index, &mut room), Err(FillError::NotPresent))
}

// How many words there are, the program's own name among them.
pub fn arg_count(rt: &impl Env) -> usize {
    for index in 0..usize::MAX {
        if !is_there(rt, index) {
            return index;
        }
    }
    usize::MAX
}
