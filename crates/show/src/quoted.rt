// Texts and chars in quotes.
ghost use Rattle.std.specs.Prelude.{◌<◌, ◌≤◌, length};

use wording::block::Block;

// The bytes of a text that are shown; of a longer one the length is shown too.
const SHOWN: usize = 64;

// A byte that stands for itself, or for which a letter stands, or hex digits.
fn ascii(out: &mut Block, b: u8) {
    match b {
        b'"' => out.text(b"\\\""),
        b'\\' => out.text(b"\\\\"),
        b'\n' => out.text(b"\\n"),
        b'\r' => out.text(b"\\r"),
        b'\t' => out.text(b"\\t"),
        0x20..=0x7E => out.byte(b),
        _ => write!(out, "\\x{b:02x}"),
    }
}

// Whether a byte continues a character.
fn continues(b: u8) -> bool {
    matches!(b, 0x80..=0xBF)
}

// Whether two bytes are a character of U+00A1 to U+07FF that is shown as it is: all but the soft hyphen and the Arabic letter mark.
fn is_pair(lead: u8, second: u8) -> bool {
    match (lead, second) {
        (0xC2, 0xAD) | (0xD8, 0x9C) => false,
        (0xC2, 0xA1..=0xBF) => true,
        (0xC3..=0xDF, _) => continues(second),
        _ => false,
    }
}

// Whether three bytes are a character that is shown as it is: one of U+1000 to U+1FFF or of U+3000 to U+CFFF, but the Mongolian
// vowel separator. There is one way alone to write each of these.
fn is_triple(lead: u8, second: u8, third: u8) -> bool {
    match (lead, second, third) {
        (0xE1, 0xA0, 0x8E) => false,
        (0xE1 | 0xE3..=0xEC, _, _) => continues(second) && continues(third),
        _ => false,
    }
}

// How many of these bytes the first character has, if it is of several bytes and shown as it is; 1 for any other byte.
fn length(bytes: &[u8]) -> usize
    requires { 0 < length bytes.now }
    ensures some { 0 < result }
    ensures inside { result ≤ length bytes.now }
{
    match bytes {
        [lead, second, ..] if is_pair(*lead, *second) => 2,
        [lead, second, third, ..] if is_triple(*lead, *second, *third) => 3,
        _ => 1,
    }
}

// The characters that begin among the first bytes, of which there are so many. Each step is a character's length, so no
// `for` fits.
fn characters(out: &mut Block, bytes: &[u8], begin: usize) {
    let after = bytes.len().saturating_sub(begin);
    let mut left = bytes;
    while after < left.len() {
        let (character, rest) = left.split_at(length(left));
        match character {
            [b] => ascii(out, *b),
            _ => out.text(character),
        }
        left = rest;
    }
}

// A name or a word, with no quotes around it.
pub fn plain(out: &mut Block, word: &[u8]) {
    characters(out, word, word.len());
}

// A text of the message, by its first byte and its length.
pub fn quoted(out: &mut Block, message: &[u8], first: usize, width: usize) {
    out.byte(b'"');
    characters(out, message.get(first..).unwrap_or(&[]), width.min(SHOWN));
    out.byte(b'"');
    if SHOWN < width {
        write!(out, "... ({width} bytes)");
    }
}

// A char.
pub fn char(out: &mut Block, b: u8) {
    out.byte(b'\'');
    match b {
        b'\'' => out.text(b"\\'"),
        _ => ascii(out, b),
    }
    out.byte(b'\'');
}
