// The run of an AIGER text by its own equations: a value for each variable, in the order of the definitions, and gates
// settled in turns until none is open.
#![tactic(auto)]

use reference_import::importing::{Heading, found, kind_of};
use reference_lines::{cell, put_cell};
use reference_rows::bytes::{after, item, put_item};
use reference_rows::values::{and3, literal_value};

// A value that is not settled yet.
const OPEN: u8 = 2;

// The literals that a line uses, by the places of their variables among the definitions, in columns 6 and 7.
fn put_uses(table: &mut [u32], heading: Heading, count: usize, names: &[u32]) {
    let nodes = reference_import::importing::nodes_of(heading);
    for before in 0..count {
        let line = after(before);
        let uses = reference_import::importing::uses_of(table, heading, line);
        let first = found(names, nodes, uses.first);
        let second = found(names, nodes, uses.second);
        put_cell(table, line, 6, first.into());
        put_cell(table, line, 7, second.into());
    }
}

fn use_value(table: &[u32], line: usize, column: usize, values: &[u8]) -> u8 {
    let literal = cell(table, line, column) % 65536;
    literal_value(values, literal as u16)
}

// The place of a line's variable among the definitions.
fn variable_of(heading: Heading, line: usize) -> usize {
    if kind_of(heading, line) == 3 {
        line.wrapping_sub(heading.outputs)
    } else {
        line
    }
}

// ---- steps

// What a latch starts as: as chosen if its reset is its own literal.
fn starts_as(table: &[u32], line: usize, choice: u8) -> u8 {
    if is_chosen(table, line) {
        return choice;
    }
    u8::from(cell(table, line, 0) == 3 && cell(table, line, 3) == 1)
}

fn is_chosen(table: &[u32], line: usize) -> bool {
    cell(table, line, 0) == 3 && cell(table, line, 3) == cell(table, line, 1)
}

fn start(table: &[u32], heading: Heading, count: usize, choices: &[u8], held: &mut [u8]) {
    let mut next = 0;
    for before in 0..count {
        let line = after(before);
        let value = starts_as(table, line, item(choices, next));
        put_item(held, line, value);
        if kind_of(heading, line) == 2 && is_chosen(table, line) {
            next = after(next);
        }
    }
}

// An input's value is given, a latch's held, a gate's open; an output has no variable.
fn load_line(heading: Heading, line: usize, input: u8, held: &[u8], values: &mut [u8]) {
    match kind_of(heading, line) {
        1 => put_item(values, line, input),
        2 => put_item(values, line, item(held, line)),
        3 => put_item(values, variable_of(heading, line), OPEN),
        _ => {}
    }
}

// The values before a step, whose inputs stand in the list from `from` on.
fn load(
    heading: Heading,
    count: usize,
    inputs: &[u8],
    from: usize,
    held: &[u8],
    values: &mut [u8],
) {
    put_item(values, 0, 0);
    for before in 0..count {
        let input = item(inputs, from.wrapping_add(before));
        load_line(heading, after(before), input, held, values);
    }
}

// Whether the line is a gate's and its value open.
fn is_open(heading: Heading, line: usize, values: &[u8]) -> bool {
    kind_of(heading, line) == 3 && item(values, variable_of(heading, line)) == OPEN
}

// An open gate's value by its equation, if its operands' are known; whether it stays open.
fn settle_line(table: &[u32], heading: Heading, line: usize, values: &mut [u8]) -> bool {
    if !is_open(heading, line, values) {
        return false;
    }
    let x = use_value(table, line, 6, values);
    let y = use_value(table, line, 7, values);
    let value = and3(x, y);
    put_item(values, variable_of(heading, line), value);
    value == OPEN
}

// Each open gate once; whether one stays open.
fn settle(table: &[u32], heading: Heading, count: usize, values: &mut [u8]) -> bool {
    let mut left = false;
    for before in 0..count {
        let stays = settle_line(table, heading, after(before), values);
        left = left || stays;
    }
    left
}

// A turn settles a gate at least, so as many turns as there are lines are enough.
fn settle_all(table: &[u32], heading: Heading, count: usize, values: &mut [u8]) {
    for _ in 0..count {
        if !settle(table, heading, count, values) {
            return;
        }
    }
}

// Every latch takes its next value.
fn advance(table: &[u32], count: usize, values: &[u8], held: &mut [u8]) {
    for before in 0..count {
        let line = after(before);
        put_item(held, line, use_value(table, line, 6, values));
    }
}

// The values of the outputs, from `from` on.
fn show(table: &[u32], heading: Heading, values: &[u8], shown: &mut [u8], from: usize) {
    let sources = heading.inputs.wrapping_add(heading.latches);
    for position in 0..heading.outputs {
        let line = after(sources.wrapping_add(position));
        let at = from.wrapping_add(position);
        put_item(shown, at, use_value(table, line, 6, values));
    }
}

// A step on the inputs from `read` on, whose outputs are put from `written` on.
fn take_step(
    table: &[u32],
    heading: Heading,
    count: usize,
    inputs: &[u8],
    read: usize,
    held: &mut [u8],
    values: &mut [u8],
    shown: &mut [u8],
    written: usize,
) {
    load(heading, count, inputs, read, held, values);
    settle_all(table, heading, count, values);
    show(table, heading, values, shown, written);
    advance(table, count, values, held);
}

fn run_steps(
    table: &[u32],
    heading: Heading,
    count: usize,
    steps: usize,
    inputs: &[u8],
    held: &mut [u8],
    values: &mut [u8],
    shown: &mut [u8],
) {
    let mut read = 0;
    let mut written = 0;
    for _ in 0..steps {
        take_step(
            table, heading, count, inputs, read, held, values, shown, written,
        );
        read = read.wrapping_add(heading.inputs);
        written = written.wrapping_add(heading.outputs);
    }
}

// The outputs of a text that is imported, step by step; of another text nothing is shown. `choices` has a value for each latch whose reset is itself, in their
// order, `inputs` one for each input and step.
pub fn run(
    text: &[u8],
    steps: usize,
    choices: &[u8],
    inputs: &[u8],
    shown: &mut [u8],
    table: &mut [u32],
    names: &mut [u32],
) {
    let mut held = reference_rows::rooms::row_bytes();
    let mut values = reference_rows::rooms::row_bytes();
    let Ok(count) = reference_lines::put_text(text, table) else {
        return;
    };
    let heading = reference_import::importing::heading_of(table);
    reference_import::importing::put_names(table, heading, count, names);
    put_uses(table, heading, count, names);
    start(table, heading, count, choices, &mut held);
    run_steps(
        table,
        heading,
        count,
        steps,
        inputs,
        &mut held,
        &mut values,
        shown,
    );
}
