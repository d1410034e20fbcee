// Netlists by chance.
use trial_pieces::dice::{chance, roll, roll_from};
use trial_pieces::pieces::plus;

// What a netlist is like: how many nodes there are at least, at most how many outputs, how many gates for 16 pieces, whether
// its lasso may be long, and up to how many registers and rows it is filled.
#[derive(Clone, Copy)]
pub struct Style {
    pub nodes: usize,
    pub outputs: usize,
    pub gates: usize,
    pub long: bool,
    pub registers: usize,
    pub rows: usize,
}

// What most netlists have in common.
pub const PLAIN: Style = Style {
    nodes: 0,
    outputs: 16,
    gates: 40,
    long: false,
    registers: 0,
    rows: 0,
};

// A piece more, while there is room.
fn put_next(file: &mut [u8], seed: &mut u64, style: Style, at: usize) -> usize {
    if at >= style.nodes {
        return at;
    }
    let pick = roll(seed, plus(style.gates, 18));
    trial_pieces::pieces::put_piece(file, seed, at, pick)
}

fn put_nodes(file: &mut [u8], seed: &mut u64, style: Style, from: usize) -> usize {
    let mut at = from;
    for _ in 0..style.nodes {
        at = put_next(file, seed, style, at);
    }
    at
}

fn close_registers(file: &mut [u8], seed: &mut u64, nodes: usize) {
    for at in 0..nodes {
        trial_pieces::pieces::close_register(file, seed, at, nodes);
    }
}

fn put_outputs(file: &mut [u8], seed: &mut u64, nodes: usize, outputs: usize) {
    for i in 0..outputs {
        trial_pieces::pieces::put_output(file, seed, plus(nodes, i), nodes);
    }
}

// Row 1 on: first what makes the lasso long, if that is asked for.
fn put_first(file: &mut [u8], seed: &mut u64, style: Style) -> usize {
    if style.long {
        trial_pieces::pieces::put_long_piece(file, seed, 1)
    } else {
        1
    }
}

fn put_registers(file: &mut [u8], seed: &mut u64, from: usize, end: usize) {
    for at in from..end {
        trial_pieces::pieces::put_open_register(file, seed, at);
    }
}

fn put_inputs(file: &mut [u8], from: usize, end: usize) {
    for at in from..end {
        trial_pieces::pieces::put_input(file, at);
    }
}

// Registers up to the number asked for; the answer is the row after them.
fn fill_registers(file: &mut [u8], seed: &mut u64, style: Style, at: usize) -> usize {
    let have = reference_rows::rows::count_kind(file, at, 2);
    if have >= style.registers {
        return at;
    }
    let end = plus(at, style.registers - have);
    put_registers(file, seed, at, end);
    end
}

// Inputs up to row `end`; the answer is the row after them.
fn fill_rows(file: &mut [u8], at: usize, end: usize) -> usize {
    if at >= end {
        return at;
    }
    put_inputs(file, at, end);
    end
}

// How many nodes there are to be, for so many rows with the outputs.
fn nodes_of(style: Style, outputs: usize) -> usize {
    style.rows.saturating_sub(outputs)
}

// The nodes; the answer is how many.
fn put_all_nodes(file: &mut [u8], seed: &mut u64, style: Style, outputs: usize) -> usize {
    let first = put_first(file, seed, style);
    let pieced = put_nodes(file, seed, style, first);
    let filled = fill_registers(file, seed, style, pieced);
    fill_rows(file, filled, nodes_of(style, outputs))
}

// A netlist in a file of zeros; the answer is the file's length.
pub fn put_netlist(file: &mut [u8], seed: &mut u64, style: Style) -> usize {
    let outputs = roll_from(seed, 1, style.outputs);
    let nodes = put_all_nodes(file, seed, style, outputs);
    close_registers(file, seed, nodes);
    put_outputs(file, seed, nodes, outputs);
    reference_writing::writer::close(file, plus(nodes, outputs))
}

// A counter with its last bit as output; the answer is the file's length.
pub fn put_counter(file: &mut [u8], bits: usize) -> usize {
    let nodes = trial_pieces::pieces::put_counter(file, 1, bits);
    let last = nodes.wrapping_sub(3);
    let output = trial_pieces::pieces::cells(6, 0, trial_pieces::dice::plain(last), 0, 0);
    reference_rows::rows::put_row(file, nodes, output);
    reference_writing::writer::close(file, plus(nodes, 1))
}

// Up to 40 nodes and a few outputs.
fn small(seed: &mut u64) -> Style {
    let nodes = roll_from(seed, 1, 40);
    let gates = roll(seed, 12);
    let long = chance(seed, 8);
    Style {
        nodes,
        outputs: 5,
        gates,
        long,
        ..PLAIN
    }
}

// Up to 980 nodes and 16 outputs.
fn large(seed: &mut u64) -> Style {
    let nodes = roll_from(seed, 60, 920);
    let gates = roll_from(seed, 16, 40);
    let long = chance(seed, 3);
    Style {
        nodes,
        gates,
        long,
        ..PLAIN
    }
}

// At the limits of Fold: 255 to 257 registers, 1,008 or 1,009 rows.
fn at_limits(seed: &mut u64) -> Style {
    let nodes = roll_from(seed, 60, 600);
    let registers = roll_from(seed, 255, 3);
    let rows = roll_from(seed, 1008, 2);
    Style {
        nodes,
        registers,
        rows,
        ..PLAIN
    }
}

// Past the limit of Fold, up to the most rows that Run and Sort take with little work.
fn past_limits(seed: &mut u64) -> Style {
    let nodes = roll_from(seed, 1009, 6000);
    let rows = if chance(seed, 2) { 8064 } else { 0 };
    Style {
        nodes,
        rows,
        ..PLAIN
    }
}

#[derive(Clone, Copy)]
pub enum Size {
    Small,
    Large,
    AtLimits,
    PastLimits,
}

pub fn style_of(size: Size, seed: &mut u64) -> Style {
    match size {
        Size::Small => small(seed),
        Size::Large => large(seed),
        Size::AtLimits => at_limits(seed),
        Size::PastLimits => past_limits(seed),
    }
}
