// Import as it is said: the lines stand in a table, the definitions in a list in the order of the rows, and each name is
// looked for in the whole list.
use reference_lines::{TextRefusal, cell};
use reference_questions::{Refusal, said};
use reference_rows::bytes::{after, item, put_item};
use reference_rows::rows::{MOST_BYTES, MOST_ROWS, Row, put_row};

// The answer to a text of more lines than the table has room for.
pub const TOO_LONG: u32 = 255;

// What is lent for every text, besides a result for the most bytes.
const LEAST_WORK: usize = 196608;

// The header's numbers.
#[derive(Clone, Copy)]
pub struct Heading {
    pub maximum: u32,
    pub inputs: usize,
    pub latches: usize,
    pub outputs: usize,
    pub gates: usize,
}

pub fn heading_of(table: &[u32]) -> Heading {
    Heading {
        maximum: cell(table, 0, 1),
        inputs: cell(table, 0, 2) as usize,
        latches: cell(table, 0, 3) as usize,
        outputs: cell(table, 0, 4) as usize,
        gates: cell(table, 0, 5) as usize,
    }
}

fn plus(x: usize, y: usize) -> usize {
    x.wrapping_add(y)
}

fn minus(x: usize, y: usize) -> usize {
    x.wrapping_sub(y)
}

// How many nodes there are, the constant among them.
pub fn nodes_of(heading: Heading) -> usize {
    let sources = plus(1, plus(heading.inputs, heading.latches));
    plus(sources, heading.gates)
}

// ---- lines

// The kind of row that line 1 or a later one becomes.
pub fn kind_of(heading: Heading, line: usize) -> u8 {
    let sources = plus(heading.inputs, heading.latches);
    let shown = plus(sources, heading.outputs);
    if line <= heading.inputs {
        1
    } else if line <= sources {
        2
    } else if line <= shown {
        6
    } else {
        3
    }
}

// An even literal of 2 to 2M.
fn definition_right(literal: u32, maximum: u32) -> bool {
    literal % 2 == 0 && (1..=maximum).contains(&(literal / 2))
}

fn latch_right(count: u32, literal: u32, reset: u32) -> bool {
    count == 2 || count == 3 && (reset < 2 || reset == literal)
}

fn line_right(table: &[u32], heading: Heading, line: usize) -> bool {
    let count = cell(table, line, 0);
    let literal = cell(table, line, 1);
    let reset = cell(table, line, 3);
    let defines = definition_right(literal, heading.maximum);
    match kind_of(heading, line) {
        1 => count == 1 && defines,
        2 => latch_right(count, literal, reset) && defines,
        6 => count == 1,
        _ => count == 3 && defines,
    }
}

fn lines_right(table: &[u32], heading: Heading, count: usize) -> bool {
    (0..count).all(|before| line_right(table, heading, after(before)))
}

// ---- names

// What the line defines is the next name; the answer is the place after it.
fn put_name(table: &[u32], heading: Heading, line: usize, names: &mut [u32], at: usize) -> usize {
    if kind_of(heading, line) == 6 {
        return at;
    }
    put_item(names, at, cell(table, line, 1));
    after(at)
}

// The literals of all nodes: the constant's, then the definitions of inputs, latches and gates.
pub fn put_names(table: &[u32], heading: Heading, count: usize, names: &mut [u32]) {
    let mut next = 1;
    put_item(names, 0, 0);
    for before in 0..count {
        next = put_name(table, heading, after(before), names, next);
    }
}

// The first node with this name.
fn node_named(names: &[u32], nodes: usize, name: u32) -> Option<usize> {
    names[..nodes.min(names.len())]
        .iter()
        .position(|&other| other == name)
}

fn is_defined(names: &[u32], nodes: usize, literal: u32) -> bool {
    node_named(names, nodes, literal - literal % 2).is_some()
}

// Whether each node is the first with its name.
fn all_once(names: &[u32], nodes: usize) -> bool {
    (0..nodes).all(|node| node_named(names, nodes, item(names, node)) == Some(node))
}

// The literals that a line uses; the constant where there are fewer than two.
#[derive(Clone, Copy)]
pub struct Uses {
    pub first: u32,
    pub second: u32,
}

pub fn uses_of(table: &[u32], heading: Heading, line: usize) -> Uses {
    let (first, second) = match kind_of(heading, line) {
        1 => (0, 0),
        2 => (cell(table, line, 2), 0),
        6 => (cell(table, line, 1), 0),
        _ => (cell(table, line, 2), cell(table, line, 3)),
    };
    Uses { first, second }
}

fn all_defined(table: &[u32], heading: Heading, count: usize, names: &[u32], nodes: usize) -> bool {
    (0..count).all(|before| {
        let uses = uses_of(table, heading, after(before));
        is_defined(names, nodes, uses.first) && is_defined(names, nodes, uses.second)
    })
}

// The literal of the row whose name it is; a literal that no line defines stands for the row after the last node.
pub fn found(names: &[u32], nodes: usize, literal: u32) -> u16 {
    let name = literal - literal % 2;
    let node = node_named(names, nodes, name).unwrap_or(nodes) % 32768;
    (2 * node) as u16 + (literal % 2) as u16
}

// ---- rows

// A missing reset is 0, the latch itself is unknown.
fn reset_of(count: u32, reset: u32) -> u8 {
    match reset {
        _ if count == 2 => 0,
        0 => 0,
        1 => 1,
        _ => 2,
    }
}

fn cells(kind: u8, reset: u8, a: u16, b: u16) -> Row {
    Row {
        kind,
        reset,
        a,
        b,
        c: 0,
    }
}

// The position of a line among those of its section.
fn position_of(heading: Heading, line: usize) -> u16 {
    let before = match kind_of(heading, line) {
        1 => 1,
        2 => plus(1, heading.inputs),
        _ => plus(1, plus(heading.inputs, heading.latches)),
    };
    (minus(line, before) % 65536) as u16
}

// Inputs and latches stand in the rows of their lines, gates as far before theirs as there are outputs, and these behind.
fn place_of(heading: Heading, line: usize) -> usize {
    let sources = plus(heading.inputs, heading.latches);
    match kind_of(heading, line) {
        1 | 2 => line,
        6 => plus(nodes_of(heading), minus(minus(line, sources), 1)),
        _ => minus(line, heading.outputs),
    }
}

fn row_of(table: &[u32], heading: Heading, line: usize, names: &[u32]) -> Row {
    let nodes = nodes_of(heading);
    let uses = uses_of(table, heading, line);
    let a = found(names, nodes, uses.first);
    let b = found(names, nodes, uses.second);
    let reset = reset_of(cell(table, line, 0), cell(table, line, 3));
    let position = position_of(heading, line);
    match kind_of(heading, line) {
        1 => cells(1, 0, position, 0),
        2 => cells(2, reset, a, position),
        6 => cells(6, 0, a, position),
        _ => cells(3, 0, a, b),
    }
}

fn put_rows(table: &[u32], heading: Heading, count: usize, names: &[u32], file: &mut [u8]) {
    for before in 0..count {
        let line = after(before);
        put_row(
            file,
            place_of(heading, line),
            row_of(table, heading, line, names),
        );
    }
}

fn sort_text(
    table: &[u32],
    heading: Heading,
    count: usize,
    names: &[u32],
    res: &mut [u8],
) -> Result<u32, Refusal> {
    let mut file = reference_rows::rooms::file_bytes();
    put_rows(table, heading, count, names, &mut file);
    crate::sorting::sort_rows(&file, after(count), res)
}

// ---- 23, 24, 25, 22

// Whether the lines say a netlist: their names are listed.
fn are_right(table: &[u32], heading: Heading, count: usize, names: &mut [u32]) -> bool {
    let nodes = nodes_of(heading);
    if heading.outputs == 0 || !lines_right(table, heading, count) {
        return false;
    }
    put_names(table, heading, count, names);
    all_once(names, nodes) && all_defined(table, heading, count, names, nodes)
}

fn of_text(refusal: TextRefusal) -> Refusal {
    match refusal {
        TextRefusal::Wrong => said(24, 0),
        TextRefusal::TooLong => said(TOO_LONG, 0),
    }
}

fn import_text(
    text: &[u8],
    table: &mut [u32],
    names: &mut [u32],
    res: &mut [u8],
) -> Result<u32, Refusal> {
    let count = reference_lines::put_text(text, table).map_err(of_text)?;
    let heading = heading_of(table);
    if !are_right(table, heading, count, names) {
        return Err(said(24, 0));
    }
    if after(count) > MOST_ROWS {
        return Err(said(25, 0));
    }
    sort_text(table, heading, count, names, res)
}

// Import: on success the result starts with the file and is zero after it, and the answer is how many rows it has; a refusal does not change it. Work is zero after
// both. The table has room for eight numbers for each line, the list of names for one.
pub fn import(
    text: &[u8],
    table: &mut [u32],
    names: &mut [u32],
    res: &mut [u8],
    work: &mut [u8],
) -> Result<u32, Refusal> {
    work.fill(0);
    if res.len() < MOST_BYTES || work.len() < LEAST_WORK {
        return Err(said(23, 0));
    }
    import_text(text, table, names, res)
}
