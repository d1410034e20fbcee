// An AIGER text read: its numbers, its lines, its header, and whether each line that the header counts is right by itself.
#![tactic(auto)]

ghost use Rattle.std.specs.Prelude.{◌≡◌, true, ◌+◌, ◌-◌, ◌*◌, ◌<◌, ◌≤◌, length, drop, IfSome};
ghost use Rattle.std.proofs.Math.Option.{some};
ghost use Rattle.aiger.specs.AigerText.{line_count, section_of, definition_right, line_right, opening};
ghost use Rattle.aiger.specs.AigerReading.{is_digit, more_digits, number, line, starts_with, header};
ghost use Rattle.aiger_lines.specs.Lines.{header_in, section_in, number_read, NumberInside, field, field_read, FieldInside, numbers_in, line_read, headed_read, lines_stand, Padded, FewHeader, FewHeaded};

const LARGEST: u64 = 4294967295;

// A number with the byte after it, a space or the line feed that ends a line, and where the text goes on; or other text.
// Three cases in one enum: `read_line` and `read_header` take them apart by one pattern, where an `Option` asks for two.
#[derive(Clone, Copy)]
pub enum Field {
    Next(u32, usize),
    Last(u32, usize),
    Other,
}

// A line: how many numbers it has, these, 0 for one that it has not, and where the next line begins.
#[derive(Clone, Copy)]
pub struct Line {
    pub count: usize,
    pub first: u32,
    pub second: u32,
    pub third: u32,
    pub next: usize,
}

// M, I, L, O and A.
#[derive(Clone, Copy)]
pub struct Header {
    pub maximum: usize,
    pub inputs: usize,
    pub latches: usize,
    pub outputs: usize,
    pub gates: usize,
}

// What a line is for.
#[derive(Clone, Copy)]
pub enum Section {
    Input,
    Latch,
    Output,
    Gate,
}

// The number with one digit more.
fn with_digit(value: u32, byte: u8) -> u64
    requires { is_digit byte ≡ true }
    ensures { result ≡ 10 * value + (byte - 48) }
{
    let digit = byte - b'0';
    10 * u64::from(value) + u64::from(digit)
}

// The number whose digits go on from `at`, `first` so far, and where it ends.
fn more_digits(text: &[u8], at: usize, first: u32) -> Option<(u32, usize)>
    requires { at ≤ length text.now }
    ensures result_value { number_read text.now result ≡ more_digits first (drop at text.now) }
    ensures number_inside { NumberInside text.now result }
{
    let mut value = first;
    for i in at..text.len() {
        let byte = text[i];
        if !byte.is_ascii_digit() {
            return Some((value, i));
        }
        let longer = with_digit(value, byte);
        if LARGEST < longer {
            return None;
        }
        value = longer as u32;
    }
    Some((value, text.len()))
}

// A number and where it ends.
fn read_number(text: &[u8], at: usize) -> Option<(u32, usize)>
    requires { at ≤ length text.now }
    ensures result_value { number_read text.now result ≡ number (drop at text.now) }
    ensures number_inside { NumberInside text.now result }
{
    if at == text.len() {
        return None;
    }
    let byte = text[at];
    let after = at + 1;
    if byte == b'0' {
        return Some((0, after));
    }
    if !byte.is_ascii_digit() {
        return None;
    }
    let digit = byte - b'0';
    more_digits(text, after, u32::from(digit))
}

fn read_field(text: &[u8], at: usize) -> Field
    requires { at ≤ length text.now }
    ensures result_value { field_read text.now result ≡ field (drop at text.now) }
    ensures field_inside { FieldInside text.now result }
{
    let Some((value, end)) = read_number(text, at) else {
        return Field::Other;
    };
    if text.len() <= end {
        return Field::Other;
    }
    let byte = text[end];
    let after = end + 1;
    if byte == b'\n' {
        Field::Last(value, after)
    } else if byte == b' ' {
        Field::Next(value, after)
    } else {
        Field::Other
    }
}

// A line of one to three numbers.
pub fn read_line(text: &[u8], at: usize) -> Option<Line>
    requires { at ≤ length text.now }
    ensures result_value { line_read text.now result ≡ line 3 (drop at text.now) }
    ensures padded { IfSome result (Padded text.now) }
{
    match read_field(text, at) {
        Field::Other => None,
        Field::Last(first, next) => Some(Line {
            count: 1,
            first,
            second: 0,
            third: 0,
            next,
        }),
        Field::Next(first, after) => match read_field(text, after) {
            Field::Other => None,
            Field::Last(second, next) => Some(Line {
                count: 2,
                first,
                second,
                third: 0,
                next,
            }),
            Field::Next(second, later) => match read_field(text, later) {
                Field::Last(third, next) => Some(Line {
                    count: 3,
                    first,
                    second,
                    third,
                    next,
                }),
                Field::Next(_, _) => None,
                Field::Other => None,
            },
        },
    }
}

// Whether the text opens as an AIGER text does: asked before any number.
pub fn opens(text: &[u8]) -> bool
    ensures { result ≡ starts_with opening text.now }
{
    text.starts_with(b"aag ")
}

// The header and where the first line begins.
pub fn read_header(text: &[u8]) -> Option<(Header, usize)>
    ensures result_value { headed_read text.now result ≡ header text.now }
    ensures few_headed { FewHeaded text.now result }
{
    if !opens(text) {
        return None;
    }
    let Field::Next(maximum, a) = read_field(text, 4) else {
        return None;
    };
    let Field::Next(inputs, b) = read_field(text, a) else {
        return None;
    };
    let Field::Next(latches, c) = read_field(text, b) else {
        return None;
    };
    let Field::Next(outputs, d) = read_field(text, c) else {
        return None;
    };
    let Field::Last(gates, e) = read_field(text, d) else {
        return None;
    };
    let h = Header {
        maximum: maximum as usize,
        inputs: inputs as usize,
        latches: latches as usize,
        outputs: outputs as usize,
        gates: gates as usize,
    };
    Some((h, e))
}

// How many lines the header counts.
pub fn line_count(h: Header) -> usize
    requires { FewHeader h }
    ensures { result ≡ line_count (header_in h) }
{
    h.inputs + h.latches + h.outputs + h.gates
}

// What line number `k` is for.
pub fn section_of(h: Header, k: usize) -> Section
    ensures { section_in result ≡ section_of (header_in h) k }
{
    if k < h.inputs {
        Section::Input
    } else if k - h.inputs < h.latches {
        Section::Latch
    } else if k - h.inputs - h.latches < h.outputs {
        Section::Output
    } else {
        Section::Gate
    }
}

fn definition_right(h: Header, literal: u32) -> bool
    ensures { result ≡ definition_right (header_in h) literal }
{
    literal % 2 == 0 && 2 <= literal && literal as usize / 2 <= h.maximum
}

// Whether the line is right by itself.
pub fn line_right(h: Header, section: Section, l: Line) -> bool
    requires { l.count ≤ 3 }
    ensures { result ≡ line_right (header_in h) (section_in section) (numbers_in l) }
{
    match section {
        Section::Input => l.count == 1 && definition_right(h, l.first),
        Section::Latch => {
            let reset = l.third <= 1 || l.third == l.first;
            let counted = l.count == 2 || l.count == 3 && reset;
            counted && definition_right(h, l.first)
        }
        Section::Output => l.count == 1,
        Section::Gate => l.count == 3 && definition_right(h, l.first),
    }
}

// Whether there is an output, every line that the header counts is there, and each is right by itself.
pub fn lines_right(text: &[u8], h: Header, from: usize) -> bool
    requires text_value { (header text.now ≡ some (header_in h, drop from text.now)) × (from ≤ length text.now) }
    requires few_header { FewHeader h }
    ensures { result ≡ lines_stand text.now }
{
    if h.outputs == 0 {
        return false;
    }
    let mut at = from;
    for k in 0..line_count(h) {
        let Some(l) = read_line(text, at) else {
            return false;
        };
        if !line_right(h, section_of(h, k), l) {
            return false;
        }
        at = l.next;
    }
    true
}
