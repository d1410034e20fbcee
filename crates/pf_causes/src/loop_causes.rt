// What a file is not sorted for, nor an AIGER text imported: refusal 22, and the gates of the loop.
use loop_way::Way;
use pf_words::outcome::{say, say_text};
use pf_words::rooms::work_room;
use text::out::{one, two};
use text::streams::Streams;

// How many gates are named of the way to the loop, and how many of the loop.
const MOST_BEFORE: usize = 5;

const MOST_AROUND: usize = 20;

// The row in this slot; 0 past the end.
fn row_in(list: &[u8], index: usize) -> usize {
    if index < list.len() / 2 {
        memory::slot_at(list, index)
    } else {
        0
    }
}

// What a gate is named by: its row, or its literal in an AIGER text that is not empty.
fn name_of(text: &[u8], row: usize) -> usize {
    if text.is_empty() {
        return row;
    }
    match aiger_faults::find_gate(text, row) {
        Some(gate) => gate.literal as usize,
        None => 0,
    }
}

// The gates in the slots from `from` on, up to `end`; of more than `most` the first ones.
fn say_gates(rt: &impl Streams, text: &[u8], list: &[u8], from: usize, end: usize, most: usize) {
    for at in from..end {
        if most <= at - from {
            say_text(rt, b"..., ");
            return;
        }
        say(rt, b"#, ", one(name_of(text, row_in(list, at))));
    }
}

// The way to the loop, around it, and where it closes; nothing if there is no way.
fn say_way(rt: &impl Streams, text: &[u8], list: &[u8], way: Way) {
    if way.count == 0 {
        return;
    }
    say_text(rt, b", where each names the next: ");
    say_gates(rt, text, list, 0, way.start, MOST_BEFORE);
    say_gates(rt, text, list, way.start, way.count, MOST_AROUND);
    say(rt, b"#", one(name_of(text, row_in(list, way.start))));
}

// The loop that keeps a gate of a file from being placed.
pub fn say_loop(rt: &impl Streams, file: &[u8], row: usize) {
    let mut list = work_room();
    let way = loop_way::find_way(file, &mut list);
    say(rt, b"row #: waits for a loop of gates", one(row));
    say_way(rt, b"", &list, way);
}

// The same for a gate of an AIGER text.
pub fn say_text_loop(rt: &impl Streams, text: &[u8], literal: usize, row: usize) {
    let mut list = work_room();
    let way = loop_way::find_text_way(text, &mut list);
    say(
        rt,
        b"gate #, row #, waits for a loop of gates",
        two(literal, row),
    );
    say_way(rt, text, &list, way);
}
