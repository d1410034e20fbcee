// What is wrong with a row: refusals 6 to 9.
use crate::outcome::{say, say_text};
use blockfile::Fields;
use listing::rows::{fields_of, row_count};
use text::bytes::wide;
use text::out::{one, three, two};
use text::streams::Streams;

// The name of a kind.
fn say_kind(rt: &impl Streams, kind: u8) {
    match kind {
        0 => say_text(rt, b"constant"),
        1 => say_text(rt, b"input"),
        2 => say_text(rt, b"register"),
        3 => say_text(rt, b"AND"),
        4 => say_text(rt, b"XOR"),
        5 => say_text(rt, b"MUX"),
        _ => say_text(rt, b"output"),
    }
}

// ---- 6

// What is wrong with a kind that is 0 to 6.
fn say_misplaced(rt: &impl Streams, row: usize, kind: u8) {
    if row == 0 {
        say_text(rt, b", and row 0 is the constant, kind 0");
    } else if kind == 0 {
        say_text(rt, b", the constant, is for row 0 alone");
    } else {
        say_text(rt, b" is a node, and comes after an output");
    }
}

// A kind that is not allowed there.
fn say_kind_cause(rt: &impl Streams, row: usize, kind: u8) {
    say(rt, b"row #: kind #", two(row, wide(kind)));
    if 6 < kind {
        say_text(rt, b" is not 0 to 6");
    } else {
        say_misplaced(rt, row, kind);
    }
}

// ---- 7

// A field that the kind does not use.
fn say_unused_field(rt: &impl Streams, row: usize, name: &[u8], value: usize, kind: u8) {
    say(rt, b"row #: ", one(row));
    say_text(rt, name);
    say(rt, b" is #, and has no use in kind ", one(value));
    say_kind(rt, kind);
}

// A phase out of range.
fn say_phase(rt: &impl Streams, row: usize, phase: usize) {
    say(rt, b"row #: phase # is not 0 to 7", two(row, phase));
}

// A reset out of range.
fn say_reset(rt: &impl Streams, row: usize, reset: u8, kind: u8) {
    let value = wide(reset);
    if kind == 2 {
        say(rt, b"row #: reset # is not 0, 1 or 2", two(row, value));
    } else {
        say_unused_field(rt, row, b"reset", value, kind);
    }
}

// A constant's first field that is not 0.
fn say_constant_field(rt: &impl Streams, row: usize, fields: Fields) {
    if fields.a != 0 {
        say_unused_field(rt, row, b"a", fields.a, 0);
    } else if fields.b != 0 {
        say_unused_field(rt, row, b"b", fields.b, 0);
    } else {
        say_unused_field(rt, row, b"c", fields.c, 0);
    }
}

// An input's phase, or its field c.
fn say_input_field(rt: &impl Streams, row: usize, fields: Fields) {
    if 7 < fields.b {
        say_phase(rt, row, fields.b);
    } else {
        say_unused_field(rt, row, b"c", fields.c, 1);
    }
}

// The reset is right.
fn say_field(rt: &impl Streams, row: usize, fields: Fields) {
    let kind = fields.kind;
    match kind {
        0 => say_constant_field(rt, row, fields),
        1 => say_input_field(rt, row, fields),
        6 => say_phase(rt, row, fields.c),
        _ => say_unused_field(rt, row, b"c", fields.c, kind),
    }
}

// Whether a reset is allowed in this kind.
fn reset_right(reset: u8, kind: u8) -> bool {
    if kind == 2 { reset <= 2 } else { reset == 0 }
}

// The first field that is wrong.
fn say_field_cause(rt: &impl Streams, row: usize, fields: Fields) {
    let kind = fields.kind;
    let reset = fields.reset;
    if reset_right(reset, kind) {
        say_field(rt, row, fields);
    } else {
        say_reset(rt, row, reset, kind);
    }
}

// ---- 8

// The phase of an input or an output; 0 for others.
fn phase_in(fields: Fields) -> usize {
    match fields.kind {
        1 => fields.b,
        6 => fields.c,
        _ => 0,
    }
}

// The label of an input, a register or an output.
fn label_in(fields: Fields) -> usize {
    if fields.kind == 1 { fields.a } else { fields.b }
}

// Whether two rows share kind, label and phase.
fn same_name(x: Fields, y: Fields) -> bool {
    x.kind == y.kind && label_in(x) == label_in(y) && phase_in(x) == phase_in(y)
}

// The first row that has the name of this one.
fn first_named(file: &[u8], fields: Fields, row: usize) -> usize {
    for earlier in 0..row {
        if same_name(fields_of(file, earlier), fields) {
            return earlier;
        }
    }
    row
}

// Label and phase; a register has no phase.
fn say_name(rt: &impl Streams, fields: Fields) {
    let label = label_in(fields);
    if fields.kind == 2 {
        say(rt, b" label #", one(label));
    } else {
        say(rt, b" label # phase #", two(label, phase_in(fields)));
    }
}

// A name that an earlier row has.
fn say_label_cause(rt: &impl Streams, file: &[u8], row: usize, fields: Fields) {
    let earlier = first_named(file, fields, row);
    say(rt, b"row #: ", one(row));
    say_kind(rt, fields.kind);
    say_name(rt, fields);
    say(rt, b" is taken by row #", one(earlier));
}

// ---- 9

// Whether a literal names a row that is no output.
fn names_node(file: &[u8], literal: usize) -> bool {
    let named = literal / 2;
    named < row_count(file) && fields_of(file, named).kind != 6
}

// A gate's first operand that names no node; its last one if there is none.
fn strange_operand(file: &[u8], fields: Fields) -> usize {
    if !names_node(file, fields.a) {
        return fields.a;
    }
    if !names_node(file, fields.b) {
        return fields.b;
    }
    fields.c
}

// The operand that a gate is refused for: one that names the gate itself, else the first that is no earlier row.
fn late_operand(fields: Fields, row: usize) -> usize {
    if fields.a / 2 == row {
        return fields.a;
    }
    if fields.b / 2 == row {
        return fields.b;
    }
    if fields.c / 2 == row {
        return fields.c;
    }
    if row < fields.a / 2 {
        return fields.a;
    }
    if row < fields.b / 2 {
        return fields.b;
    }
    fields.c
}

// Whether a row is a gate that names itself.
fn names_itself(fields: Fields, row: usize) -> bool {
    matches!(fields.kind, 3..=5) && late_operand(fields, row) / 2 == row
}

// The first gate from `row` on that names itself; `row` if there is none.
pub fn first_own(file: &[u8], row: usize) -> usize {
    for later in row..row_count(file) {
        if names_itself(fields_of(file, later), later) {
            return later;
        }
    }
    row
}

// A gate's operand that is no earlier row; where it is the gate itself, no order helps.
fn say_late_operand(rt: &impl Streams, row: usize, literal: usize) {
    let named = literal / 2;
    say(
        rt,
        b"row #: literal # names row #, ",
        three(row, literal, named),
    );
    if named == row {
        say_text(
            rt,
            b"the gate itself: a loop, which no order mends; it needs a register",
        );
    } else {
        say_text(
            rt,
            b"and a gate's operands name earlier rows; pf sort puts gates in order",
        );
    }
}

// A literal that names no node.
fn say_named_row(rt: &impl Streams, file: &[u8], row: usize, literal: usize) {
    let rows = row_count(file);
    let named = literal / 2;
    if named < rows {
        say(
            rt,
            b"row #: literal # names row #, which is an output",
            three(row, literal, named),
        );
    } else {
        say(
            rt,
            b"row #: literal # names row #, and there are # rows",
            [row, literal, named, rows, 0, 0],
        );
    }
}

// A gate's operand that names no node; else one that is no earlier row.
fn say_gate_cause(rt: &impl Streams, file: &[u8], row: usize, fields: Fields) {
    let strange = strange_operand(file, fields);
    if names_node(file, strange) {
        say_late_operand(rt, row, late_operand(fields, row));
    } else {
        say_named_row(rt, file, row, strange);
    }
}

// The first literal that is wrong.
fn say_literal_cause(rt: &impl Streams, file: &[u8], row: usize, fields: Fields) {
    match fields.kind {
        3..=5 => say_gate_cause(rt, file, row, fields),
        _ => say_named_row(rt, file, row, fields.a),
    }
}

// The sentence of a refusal of this number at a row.
pub fn say_row_cause(rt: &impl Streams, file: &[u8], number: u32, row: usize) {
    let fields = fields_of(file, row);
    match number {
        6 => say_kind_cause(rt, row, fields.kind),
        7 => say_field_cause(rt, row, fields),
        8 => say_label_cause(rt, file, row, fields),
        _ => say_literal_cause(rt, file, row, fields),
    }
}
