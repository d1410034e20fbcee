// Texts with many lines of every kind, which a line describes: each INPUTS LATCHES OUTPUTS GATES => NUMBER PLACE ROWS.
// Variables count up. Latch k takes the node that is k before the last, and its reset is missing, 1 or the latch itself by turns. Output k shows the inverse of node 3 * k, or true if there is none. Gate k names the inverse of the gate behind it, or true if it is the last, and node k, or false if that is a gate. So the gates turn round.
use crate::many::{short, size_at};
use crate::trying::cells;
use reference_rows::rows::{Row, put_row};
use scripted_texts::script::{Lent, minus, plus};
use scripted_texts::tell::{Seen, Tally};
use text::bytes::{first, get};
use text::out::{Out, one, put_filled, three, two};
use text::streams::{Nowhere, Streams};

#[derive(Clone, Copy)]
struct Each {
    inputs: usize,
    latches: usize,
    outputs: usize,
    gates: usize,
}

fn each_of(numbers: &[u32]) -> Each {
    Each {
        inputs: size_at(numbers, 0),
        latches: size_at(numbers, 1),
        outputs: size_at(numbers, 2),
        gates: size_at(numbers, 3),
    }
}

// ---- nodes

// How many nodes are no gates, the constant among them.
fn sources_of(each: Each) -> usize {
    plus(1, plus(each.inputs, each.latches))
}

fn nodes_of(each: Each) -> usize {
    plus(sources_of(each), each.gates)
}

fn lines_of(each: Each) -> usize {
    minus(plus(nodes_of(each), each.outputs), 1)
}

// The node, or the constant if it is none of the first `count`.
fn node_below(node: usize, count: usize) -> usize {
    if node < count { node } else { 0 }
}

fn taken_by(each: Each, k: usize) -> usize {
    minus(minus(nodes_of(each), 1), k)
}

fn shown_by(each: Each, k: usize) -> usize {
    node_below(3 * (k % 1000000), nodes_of(each))
}

fn literal_of(node: usize) -> usize {
    2 * (node % 1000000)
}

fn inverse_of(node: usize) -> usize {
    plus(literal_of(node), 1)
}

// Where the sorter puts a node: the last gate is the first.
fn sorted_place(each: Each, node: usize) -> usize {
    let sources = sources_of(each);
    let last = minus(nodes_of(each), 1);
    if node < sources {
        node
    } else {
        minus(plus(sources, last), node)
    }
}

// ---- the text

fn put_latch(each: Each, text: &mut [u8], out: Out, k: usize) -> Out {
    let own = literal_of(plus(plus(each.inputs, k), 1));
    let next = literal_of(taken_by(each, k));
    match k % 3 {
        0 => put_filled(&Nowhere, text, out, b"# #\n", two(own, next)),
        1 => put_filled(&Nowhere, text, out, b"# # #\n", three(own, next, 1)),
        _ => put_filled(&Nowhere, text, out, b"# # #\n", three(own, next, own)),
    }
}

fn put_gate(each: Each, text: &mut [u8], out: Out, k: usize) -> Out {
    let node = plus(sources_of(each), k);
    let behind = plus(node, 1);
    let next = node_below(behind, nodes_of(each));
    let other = node_below(k, sources_of(each));
    let numbers = three(literal_of(node), inverse_of(next), literal_of(other));
    put_filled(&Nowhere, text, out, b"# # #\n", numbers)
}

// Line number `line` after the header.
fn put_line(each: Each, text: &mut [u8], out: Out, line: usize) -> Out {
    let sources = minus(sources_of(each), 1);
    let shown = plus(sources, each.outputs);
    if line < each.inputs {
        put_filled(&Nowhere, text, out, b"#\n", one(literal_of(plus(line, 1))))
    } else if line < sources {
        put_latch(each, text, out, minus(line, each.inputs))
    } else if line < shown {
        let node = shown_by(each, minus(line, sources));
        put_filled(&Nowhere, text, out, b"#\n", one(inverse_of(node)))
    } else {
        put_gate(each, text, out, minus(line, shown))
    }
}

fn put_lines(each: Each, text: &mut [u8], out: Out) -> Out {
    let mut now = out;
    for line in 0..lines_of(each) {
        now = put_line(each, text, now, line);
    }
    now
}

// The answer is its length.
fn put_text(each: Each, text: &mut [u8]) -> usize {
    let variables = minus(nodes_of(each), 1);
    let header = [
        variables,
        each.inputs,
        each.latches,
        each.outputs,
        each.gates,
        0,
    ];
    let opened = put_filled(&Nowhere, text, text::out::to(1), b"aag # # # # #\n", header);
    put_lines(each, text, opened).waiting
}

// ---- what is expected

fn reset_of(k: usize) -> u8 {
    match k % 3 {
        0 => 0,
        1 => 1,
        _ => 2,
    }
}

fn latch_row(each: Each, k: usize) -> Row {
    let next = sorted_place(each, taken_by(each, k));
    Row {
        kind: 2,
        reset: reset_of(k),
        a: short(literal_of(next)),
        b: short(k),
        c: 0,
    }
}

// The row of gate k, as sorted.
fn gate_row(each: Each, k: usize) -> Row {
    let behind = plus(plus(sources_of(each), k), 1);
    let next = node_below(behind, nodes_of(each));
    let other = node_below(k, sources_of(each));
    let named = inverse_of(sorted_place(each, next));
    cells(3, short(named), short(literal_of(other)))
}

fn output_row(each: Each, k: usize) -> Row {
    let shown = inverse_of(sorted_place(each, shown_by(each, k)));
    cells(6, short(shown), short(k))
}

// Behind the nodes stand the outputs.
fn place_of(each: Each, number: usize) -> usize {
    if number < nodes_of(each) {
        sorted_place(each, number)
    } else {
        number
    }
}

fn row_of(each: Each, number: usize) -> Row {
    let latches = plus(1, each.inputs);
    let sources = sources_of(each);
    let nodes = nodes_of(each);
    if number < latches {
        cells(1, short(minus(number, 1)), 0)
    } else if number < sources {
        latch_row(each, minus(number, latches))
    } else if number < nodes {
        gate_row(each, minus(number, sources))
    } else {
        output_row(each, minus(number, nodes))
    }
}

// The file of so many rows.
fn put_rows(each: Each, rows: usize, file: &mut [u8]) {
    for number in 1..rows {
        put_row(file, place_of(each, number), row_of(each, number));
    }
    reference_writing::writer::close(file, rows);
}

// The result that is expected: the file and then zeros to the end of what is lent, or as it was.
fn put_expected(each: Each, expected: Seen, lent: Lent, res: &mut [u8]) {
    if expected.0 == 0 {
        crate::trying::zero(res, lent.result);
        put_rows(each, expected.2 as usize, res);
    }
}

pub fn try_each(
    rt: &impl Streams,
    line: &[u8],
    text: &mut [u8],
    numbers: &[u32],
    lent: Lent,
    tally: Tally,
) -> Tally {
    let mut result = crate::trying::result_room();
    let each = each_of(numbers);
    let size = put_text(each, text);
    let expected = Seen(get(numbers, 4), get(numbers, 5), get(numbers, 6));
    put_expected(each, expected, lent, &mut result);
    let tried = crate::trying::import_lent(first(text, size), lent, &result);
    scripted_texts::tell::judge(rt, line, b"", tried.seen, expected, tried.left, tally)
}
