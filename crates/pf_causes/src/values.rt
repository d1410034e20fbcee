// Values 0 and 1: read from a text, refused, run, and put as lines.
use crate::text_causes::{Encoding, encoding_of, say_encoding};
use c_answers::{PfCounts, PfRefusal};
use pf_words::calls::Call;
use pf_words::outcome::{
    CallRefusal, fail_at, fail_by_cause, say, say_text, say_where, say_word, tell_refusal,
};
use pf_words::rooms::work_room;
use text::bytes::{first, get, is_blank, rest};
use text::out::{Out, one, put_byte, two};
use text::streams::Streams;

// ---- read

// A byte that is no value: its line, counted from 1, which of the values it is, counted from 0, and the byte.
#[derive(Clone, Copy)]
struct NoValue {
    line: usize,
    index: usize,
    byte: u8,
}

// What is read of a text of values: how many, the line that is read, counted from 1, whether the rest of it is a remark, and the first byte that is no value.
#[derive(Clone, Copy)]
pub struct Values {
    pub count: usize,
    line: usize,
    remark: bool,
    wrong: Option<NoValue>,
}

// The value of a byte of the text; any other than 0 and 1 is none.
fn value_of(byte: u8) -> u8 {
    match byte {
        b'0' => 0,
        b'1' => 1,
        _ => 255,
    }
}

// One value more; the first that is none is remembered.
fn with_value(values: Values, value: u8, byte: u8) -> Values {
    let wrong = if value <= 1 {
        None
    } else {
        Some(NoValue {
            line: values.line,
            index: values.count,
            byte,
        })
    };
    Values {
        count: values.count.wrapping_add(1),
        wrong: values.wrong.or(wrong),
        ..values
    }
}

// The same values, on this line, in a remark or not.
fn at_line(values: Values, line: usize, remark: bool) -> Values {
    Values {
        line,
        remark,
        ..values
    }
}

// A byte outside of remarks: a value goes to the end of the values.
fn take_value(bytes: &mut [u8], values: Values, byte: u8) -> Values {
    if is_blank(byte) {
        return values;
    }
    let value = value_of(byte);
    text::bytes::put(bytes, values.count, value);
    with_value(values, value, byte)
}

// A byte of the text.
fn take_byte(bytes: &mut [u8], values: Values, byte: u8) -> Values {
    let line = values.line;
    if byte == b'\n' {
        return at_line(values, line.wrapping_add(1), false);
    }
    if values.remark {
        return values;
    }
    if byte == b'#' {
        return at_line(values, line, true);
    }
    take_value(bytes, values, byte)
}

// The values of a text, at its start.
fn read_values(bytes: &mut [u8], size: usize) -> Values {
    let mut values = Values {
        count: 0,
        line: 1,
        remark: false,
        wrong: None,
    };
    // By index: a value takes the place of a byte that was read.
    for i in 0..size {
        let byte = get(bytes, i);
        values = take_byte(bytes, values, byte);
    }
    values
}

// The values of the text at `source`, at the start of the room, and how the text is written; or it cannot be read, which is told.
pub fn load_values(
    rt: &Call,
    source: &[u8],
    room: &mut [u8],
) -> Result<(Values, Encoding), CallRefusal> {
    let loaded = match text::files::load(&rt.host, source, room) {
        Ok(loaded) => loaded,
        Err(cause) => return Err(fail_by_cause(rt, source, cause)),
    };
    if loaded.longer {
        return Err(fail_at(rt, source, b"longer than 1048576 bytes\n"));
    }
    let encoding = encoding_of(first(room, loaded.size));
    Ok((read_values(room, loaded.size), encoding))
}

// ---- refused

// What values are asked for: how many steps or groups, the counts of the file, and how the text of the values is written.
#[derive(Clone, Copy)]
pub struct Asked {
    pub steps: u32,
    pub counts: PfCounts,
    pub encoding: Encoding,
}

// Too few values or too many: the sentence has their number, and those of X registers, of inputs and of steps.
fn say_lists(rt: &impl Streams, sentence: &[u8], asked: Asked, count: usize) {
    let counts = asked.counts;
    let unknown = counts.unknown as usize;
    let inputs = counts.inputs as usize;
    let times = asked.steps as usize;
    say(rt, sentence, [count, unknown, inputs, times, 0, 0]);
}

// A value that is none.
fn say_value(rt: &impl Streams, wrong: NoValue) {
    say(rt, b"value #, counted from 0, is ", one(wrong.index));
    say_word(rt, &[wrong.byte]);
    say_text(rt, b", and should be 0 or 1");
}

// Wrong values, of which there are too few or too many (`lists`, with its sentence) or one is none; a mark before the text, UTF-16 or commas may be the cause.
fn say_values_cause(
    rt: &impl Streams,
    source: &[u8],
    lists: bool,
    sentence: &[u8],
    asked: Asked,
    values: Values,
) {
    let line = match values.wrong {
        Some(wrong) if !lists => wrong.line,
        _ => 0,
    };
    say_where(rt, source, line);
    if say_encoding(rt, b"", asked.encoding) {
        return;
    }
    if lists {
        say_lists(rt, sentence, asked, values.count);
    } else if let Some(wrong) = values.wrong {
        say_value(rt, wrong);
    }
    if matches!(values.wrong, Some(NoValue { byte: b',', .. })) {
        say_text(
            rt,
            b"; a comma counts as a value: values are parted by blanks, or by nothing",
        );
    }
}

// Values are refused, for their number or for one of them.
pub fn refuse_values(
    rt: &impl Streams,
    refusal: PfRefusal,
    source: &[u8],
    lists: bool,
    sentence: &[u8],
    asked: Asked,
    values: Values,
) -> CallRefusal {
    let refused = tell_refusal(rt, refusal);
    say_values_cause(rt, source, lists, sentence, asked, values);
    say_text(rt, b"\n");
    refused
}

// A run is refused for its memory, with 20.
pub fn refuse_memory(
    rt: &impl Streams,
    refusal: PfRefusal,
    path: &[u8],
    asked: Asked,
) -> CallRefusal {
    let refused = tell_refusal(rt, refusal);
    let counts = asked.counts;
    let times = asked.steps as usize;
    let outputs = counts.outputs as usize;
    say_where(rt, path, 0);
    say(
        rt,
        b"# steps of # outputs are more than the 1048576 values that pf has room for\n",
        two(times, outputs),
    );
    refused
}

// ---- as lines

// A value as a digit.
fn digit_of(value: u8) -> u8 {
    if value == 0 { b'0' } else { b'1' }
}

// The values of a step.
pub fn put_step(rt: &impl Streams, buffer: &mut [u8], out: Out, values: &[u8]) -> Out {
    let mut now = out;
    for value in values {
        now = put_byte(rt, buffer, now, digit_of(*value));
    }
    put_byte(rt, buffer, now, b'\n')
}

// The lines of all steps, of which each has `width` values.
pub fn put_steps(
    rt: &impl Streams,
    buffer: &mut [u8],
    out: Out,
    values: &[u8],
    steps: u32,
    width: usize,
) -> Out {
    let mut now = out;
    let mut at: usize = 0;
    for _ in 0..steps {
        now = put_step(rt, buffer, now, first(rest(values, at), width));
        at = at.wrapping_add(width);
    }
    now
}

// ---- run

// The run in the lent memory; the first values are for the X registers.
pub fn run_into(file: &[u8], asked: Asked, bytes: &[u8], res: &mut [u8]) -> Result<(), PfRefusal> {
    let mut work = work_room();
    let unknown = asked.counts.unknown as usize;
    let choices = first(bytes, unknown);
    let inputs = rest(bytes, unknown);
    match run::run(file, asked.steps, choices, inputs, res, &mut work) {
        Ok(()) => Ok(()),
        Err(refusal) => Err(c_answers::refusal_numbers(refusal)),
    }
}
