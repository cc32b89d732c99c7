// Bytes in hex: lines of sixteen, and a mark under some of them.
ghost use Rattle.std.specs.Prelude.{◌≤◌};

use std::fmt;
use std::fmt::{Display, Formatter, Write};
use wording::block::Block;
use wording::names::plural;

// The bytes of a line.
pub const WIDE: usize = 16;

// The bytes of the lines that are marked of one part.
const MARKED: usize = 64;

// The columns of a place.
const PLACE: usize = 8;

// The columns before a line's first byte.
const BEFORE: usize = 10;

// Colours: none, and those of what is refused and of what is accepted.
#[derive(Clone, Copy, PartialEq, Eq)]
pub enum Color {
    Plain,
    Red,
    Green,
}

impl Color {
    // This colour from here on, if asked for.
    pub fn begin(self, out: &mut Block, paint: bool) {
        if paint {
            write!(out, "{self}");
        }
    }
}

impl Display for Color {
    // What turns a terminal to a colour.
    fn fmt<W: Write>(&self, f: &mut Formatter<W>) -> fmt::Result {
        f.write_str(match self {
            Color::Plain => "\x1b[0m",
            Color::Red => "\x1b[31m",
            Color::Green => "\x1b[32m",
        })
    }
}

// A part of the bytes that is marked: its first byte, the byte after it, and whether with colour.
#[derive(Clone, Copy)]
struct Part {
    first: usize,
    end: usize,
    paint: bool,
}

// Three columns for each byte of a line.
fn columns(bytes: usize) -> usize
    ensures { result ≤ 48 }
{
    bytes.min(WIDE) * 3
}

// The bytes from a place on, before another; none where the message ends before that.
fn bytes_of(message: &[u8], from: usize, end: usize) -> &[u8] {
    message.get(from..end).unwrap_or(&[])
}

// The bytes from a place on, before another, with a space before each.
pub fn cells(out: &mut Block, message: &[u8], from: usize, end: usize) {
    for b in bytes_of(message, from, end) {
        write!(out, " {b:02x}");
    }
}

// The bytes from a place on, before another, as characters; a point for a byte that is none.
fn characters(out: &mut Block, message: &[u8], from: usize, end: usize) {
    for &b in bytes_of(message, from, end) {
        out.byte(if matches!(b, 0x20..=0x7E) { b } else { b'.' });
    }
}

// Where a line ends that starts at a place of a part.
fn line_end(from: usize, end: usize) -> usize {
    from.saturating_add(WIDE).min(end)
}

// The place of a line, and its bytes.
fn row(out: &mut Block, message: &[u8], from: usize, end: usize) {
    out.right(from, PLACE);
    out.byte(b' ');
    cells(out, message, from, line_end(from, end));
}

// The same, and spaces up to the column after them.
pub fn head(out: &mut Block, message: &[u8], from: usize, end: usize) {
    row(out, message, from, end);
    let wide = columns(line_end(from, end).saturating_sub(from));
    out.spaces(columns(WIDE).saturating_sub(wide) + 2);
}

// One line, with the characters.
fn full_line(out: &mut Block, message: &[u8], from: usize) {
    let end = message.len();
    if from < end {
        head(out, message, from, end);
        characters(out, message, from, line_end(from, end));
    } else {
        out.right(from, PLACE);
    }
    out.line();
}

// The lines that follow the first of a part, with no characters.
pub fn rest(out: &mut Block, message: &[u8], from: usize, end: usize) {
    for start in (from..end).step_by(WIDE).skip(1) {
        row(out, message, start, end);
        out.line();
    }
}

// The lines with characters from a place on, before another.
pub fn lines(out: &mut Block, message: &[u8], from: usize, end: usize) {
    for start in (from..end).step_by(WIDE) {
        full_line(out, message, start);
    }
}

// Marks under those bytes of a line that belong to a part.
fn carets(out: &mut Block, start: usize, p: Part) {
    let column = p.first.saturating_sub(start);
    let stop = p.end.saturating_sub(start).min(WIDE);
    out.spaces(columns(column) + BEFORE);
    Color::Red.begin(out, p.paint);
    out.repeated(b'^', columns(stop.saturating_sub(column)).saturating_sub(1));
    Color::Plain.begin(out, p.paint);
    out.line();
}

// The lines from one on, before a place, with marks under a part.
fn marked(out: &mut Block, message: &[u8], from: usize, stop: usize, p: Part) {
    for start in (from..stop).step_by(WIDE) {
        full_line(out, message, start);
        carets(out, start, p);
    }
}

// What follows the marked lines of a part: the line after it, or how many more bytes it has.
fn following(out: &mut Block, message: &[u8], stop: usize, end: usize) {
    if stop < end {
        let left = end - stop;
        writeln!(out, "          and {left} more byte{}", plural(left));
        return;
    }
    let last = stop.saturating_sub(1);
    let after = (last - last % WIDE).saturating_add(WIDE);
    lines(out, message, after, line_end(after, message.len()));
}

// The bytes around a part: its lines with marks under it, the line before and the line after. Of a longer part the first lines.
pub fn around(out: &mut Block, message: &[u8], first: usize, width: usize, paint: bool) {
    let start = first - first % WIDE;
    let end = first.saturating_add(width);
    let stop = start.saturating_add(MARKED).min(end);
    lines(out, message, start.saturating_sub(WIDE), start);
    marked(out, message, start, stop, Part { first, end, paint });
    following(out, message, stop, end);
}
