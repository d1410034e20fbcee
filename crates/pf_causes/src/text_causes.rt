// What is wrong with a whole text, whatever its lines are to say.
use pf_words::block_causes::is_first_block;
use pf_words::outcome::say_text;
use text::bytes::get;
use text::streams::Streams;

// How a text is written, by its first bytes: as it is read, behind a byte-order mark, or as UTF-16.
#[derive(Clone, Copy)]
pub enum Encoding {
    Plain,
    Marked,
    Wide,
}

// Whether a byte is one of a text.
pub fn is_text_byte(byte: u8) -> bool {
    matches!(byte, b'\t' | b'\n' | b'\r' | 32..=126)
}

// UTF-16 begins with a mark of its own, or with a byte of a text beside a zero.
pub fn encoding_of(text: &[u8]) -> Encoding {
    if text.starts_with(b"\xef\xbb\xbf") {
        return Encoding::Marked;
    }
    let first = get(text, 0);
    let second = get(text, 1);
    let marked = text.starts_with(b"\xff\xfe") || text.starts_with(b"\xfe\xff");
    let low_first = 1 < text.len() && is_text_byte(first) && second == 0;
    let high_first = first == 0 && is_text_byte(second);
    if marked || low_first || high_first {
        Encoding::Wide
    } else {
        Encoding::Plain
    }
}

// Says what is wrong with the encoding, with what comes before it; and whether anything is.
pub fn say_encoding(rt: &impl Streams, before: &[u8], encoding: Encoding) -> bool {
    match encoding {
        Encoding::Plain => false,
        Encoding::Marked => {
            say_text(rt, before);
            say_text(
                rt,
                b"a byte-order mark stands before the text: save it without one, or drop it by tail -c +4",
            );
            true
        }
        Encoding::Wide => {
            say_text(rt, before);
            say_text(
                rt,
                b"this is UTF-16, two bytes for a character: save it as plain text, or use iconv -f UTF-16 -t UTF-8",
            );
            true
        }
    }
}

// Says what is wrong with a text that make or import is given, and whether anything is.
pub fn say_text_cause(rt: &impl Streams, text: &[u8]) -> bool {
    if text.is_empty() {
        say_text(
            rt,
            b"the text is empty: what was to write it has failed, or has written elsewhere",
        );
        return true;
    }
    if is_first_block(text) {
        say_text(rt, b"this is a netlist file already, and no text");
        return true;
    }
    if say_encoding(rt, b"", encoding_of(text)) {
        return true;
    }
    let one_line = !text.contains(&b'\n') && text.contains(&b'\r');
    if is_text_byte(get(text, 0)) && one_line {
        say_text(
            rt,
            b"the lines end with carriage returns alone: tr '\\r' '\\n' makes line feeds of them",
        );
        return true;
    }
    false
}
