// Texts of many inputs, which a line describes: many INPUTS STEP LAST OUTPUT GATE CUT => NUMBER PLACE ROWS.
// The inputs are STEP, which is 2 or 6, twice STEP and so on, but the last is LAST if that is not 0; GATE 1 adds a gate that names itself; CUT is how many bytes of the text's end are missing.
use reference_rows::rows::put_row;
use scripted_texts::script::Lent;
use scripted_texts::tell::{Seen, Tally};
use text::bytes::{first, get};
use text::out::{Out, one, put_filled, three};
use text::streams::{Nowhere, Streams};

#[derive(Clone, Copy)]
struct Many {
    inputs: usize,
    step: usize,
    last: usize,
    output: usize,
    gates: usize,
    cut: usize,
}

pub fn size_at(numbers: &[u32], at: usize) -> usize {
    get(numbers, at) as usize
}

fn many_of(numbers: &[u32]) -> Many {
    Many {
        inputs: size_at(numbers, 0) % 1000000,
        step: size_at(numbers, 1),
        last: size_at(numbers, 2),
        output: size_at(numbers, 3),
        gates: size_at(numbers, 4),
        cut: size_at(numbers, 5),
    }
}

// The literal after so many others.
fn literal_of(many: Many, before: usize) -> usize {
    let number = before.wrapping_add(1);
    let place = number % 1000000;
    let literal = if many.step == 2 { 2 * place } else { 6 * place };
    if number == many.inputs && many.last != 0 {
        many.last
    } else {
        literal
    }
}

// ---- the text

fn put_inputs(many: Many, text: &mut [u8], out: Out) -> Out {
    let mut now = out;
    for at in 0..many.inputs {
        now = put_filled(&Nowhere, text, now, b"#\n", one(literal_of(many, at)));
    }
    now
}

// The gate's literal is the next that counts on.
fn put_gate(many: Many, text: &mut [u8], out: Out) -> Out {
    let literal = literal_of(many, many.inputs);
    if many.gates == 0 {
        return out;
    }
    put_filled(
        &Nowhere,
        text,
        out,
        b"# # #\n",
        three(literal, literal, many.step),
    )
}

// The answer is its length.
fn put_text(many: Many, text: &mut [u8]) -> usize {
    let maximum = literal_of(many, many.inputs);
    let header = [maximum, many.inputs, 0, 1, many.gates, 0];
    let opened = put_filled(&Nowhere, text, text::out::to(1), b"aag # # # # #\n", header);
    let named = put_inputs(many, text, opened);
    let shown = put_filled(&Nowhere, text, named, b"#\n", one(many.output));
    let closed = put_gate(many, text, shown);
    closed.waiting.wrapping_sub(many.cut)
}

// ---- what is expected

pub fn short(value: usize) -> u16 {
    (value % 65536) as u16
}

fn put_rows(many: Many, file: &mut [u8]) {
    for at in 0..many.inputs {
        let row = crate::trying::cells(1, short(at), 0);
        put_row(file, at.wrapping_add(1), row);
    }
}

// The row literal of the output: its input's number in place of its variable.
fn shown_by(many: Many) -> u16 {
    let place = if many.step == 2 {
        many.output / 2
    } else {
        many.output / 6
    };
    short(2 * (place % 32768) + many.output % 2)
}

// The file of so many rows, where no gate is.
fn put_file(many: Many, rows: usize, file: &mut [u8]) {
    let last = rows.wrapping_sub(1);
    put_rows(many, file);
    put_row(file, last, crate::trying::cells(6, shown_by(many), 0));
    reference_writing::writer::close(file, rows);
}

// The result that is expected: the file and then zeros to the end of what is lent, or as it was.
fn put_expected(many: Many, expected: Seen, lent: Lent, res: &mut [u8]) {
    if expected.0 == 0 {
        crate::trying::zero(res, lent.result);
        put_file(many, expected.2 as usize, res);
    }
}

pub fn try_many(
    rt: &impl Streams,
    line: &[u8],
    text: &mut [u8],
    numbers: &[u32],
    lent: Lent,
    tally: Tally,
) -> Tally {
    let mut result = crate::trying::result_room();
    let many = many_of(numbers);
    let size = put_text(many, text);
    let expected = Seen(get(numbers, 6), get(numbers, 7), get(numbers, 8));
    put_expected(many, expected, lent, &mut result);
    let tried = crate::trying::import_lent(first(text, size), lent, &result);
    scripted_texts::tell::judge(rt, line, b"", tried.seen, expected, tried.left, tally)
}
