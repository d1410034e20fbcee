// Run: values from a text of 0s and 1s, and the outputs of each step in a line.
use c_answers::PfRefusal;
use pf_causes::text_causes::Encoding;
use pf_causes::values::{
    Asked, Values, load_values, put_steps, refuse_memory, refuse_values, run_into,
};
use pf_causes::{count_refusal, number_of, refuse};
use pf_words::calls::Call;
use pf_words::outcome::{CallRefusal, Outcome, finish};
use text::bytes::first;
use text::out::to;
use text::streams::{OUTPUT, Streams};

// 18 and 19
fn refuse_run_values(
    rt: &impl Streams,
    refusal: PfRefusal,
    source: &[u8],
    asked: Asked,
    values: Values,
) -> CallRefusal {
    let lists = refusal.number == 18;
    refuse_values(
        rt,
        refusal,
        source,
        lists,
        b"there are # values, and should be # for X registers and # for inputs at each of # steps",
        asked,
        values,
    )
}

// The outputs of all steps.
fn tell_steps(rt: &impl Streams, values: &[u8], steps: u32, outputs: usize) -> Outcome {
    let mut room = text::rooms::large_buffer();
    let out = put_steps(rt, &mut room, to(OUTPUT), values, steps, outputs);
    finish(rt, &room, out)
}

// The run of an accepted file: its outputs, or its refusal.
fn run_accepted(
    rt: &impl Streams,
    path: &[u8],
    file: &[u8],
    word: &[u8],
    source: &[u8],
    bytes: &[u8],
    values: Values,
    asked: Asked,
) -> Outcome {
    let mut room = text::files::long_room();
    let result: &mut [u8] = &mut room;
    let Err(refusal) = run_into(file, asked, bytes, result) else {
        return tell_steps(rt, result, asked.steps, asked.counts.outputs as usize);
    };
    Err(match refusal.number {
        18 | 19 => refuse_run_values(rt, refusal, source, asked, values),
        20 => refuse_memory(rt, refusal, path, asked),
        _ => refuse(rt, path, 0, file, refusal, word),
    })
}

// The run on the values at the start of the room, or the refusal of the file.
fn run_values(
    rt: &impl Streams,
    path: &[u8],
    file: &[u8],
    steps: u32,
    word: &[u8],
    source: &[u8],
    room: &[u8],
    values: Values,
    encoding: Encoding,
) -> Outcome {
    let counts = phasefold::c_count::pf_count(file);
    if counts.number != 0 {
        return Err(refuse(rt, path, 0, file, count_refusal(counts), word));
    }
    let asked = Asked {
        steps,
        counts,
        encoding,
    };
    run_accepted(
        rt,
        path,
        file,
        word,
        source,
        first(room, values.count),
        values,
        asked,
    )
}

// The values are read.
fn run_from(
    rt: &Call,
    path: &[u8],
    file: &[u8],
    steps: u32,
    word: &[u8],
    source: &[u8],
    room: &mut [u8],
) -> Outcome {
    let (values, encoding) = load_values(rt, source, room)?;
    run_values(rt, path, file, steps, word, source, room, values, encoding)
}

// The run of this many steps on the values in the file `source`.
fn run_steps(
    rt: &Call,
    path: &[u8],
    file: &[u8],
    steps: u32,
    word: &[u8],
    source: &[u8],
) -> Outcome {
    let mut room = text::files::long_room();
    run_from(rt, path, file, steps, word, source, &mut room)
}

// The steps are the number that the word has.
pub fn run(rt: &Call, path: &[u8], file: &[u8], word: &[u8], source: &[u8]) -> Outcome {
    let steps = number_of(rt, b"the steps ", word, b" are not a number\n")?;
    run_steps(rt, path, file, steps, word, source)
}
