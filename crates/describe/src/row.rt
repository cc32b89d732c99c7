// A row in words.
ghost use Rattle.std.specs.Prelude.{◌≡◌, ◌↔◌};

use format::answers::{Kind, Span};
use format::marks::Mark;
use format::refusals::Refusal;
use grid::shape;
use navigate::message::{Message, kind_of};
use rows::Row;
use show::dump;
use show::quoted::quoted;
use show::scalars::{refused, valued};
use std::fmt;
use std::fmt::{Display, Formatter, Write};
use texts::at_rows::number_at_row;
use values::at_rows::value_at_row;
use wording::block::Block;
use wording::names::{id, mark, plural};

// What a packed array or a table has: elements or records.
#[derive(Clone, Copy, PartialEq, Eq)]
pub enum Unit {
    Element,
    Record,
}

impl Unit {
    // What a packed array or a table has, by its row.
    pub fn of(r: Row) -> Unit
        ensures { (result ≡ Unit.Record) ↔ (r.kind ≡ 8) }
    {
        if r.kind == Kind::Table.number() {
            return Unit::Record;
        }
        Unit::Element
    }
}

impl Display for Unit {
    fn fmt<W: Write>(&self, f: &mut Formatter<W>) -> fmt::Result {
        f.write_str(match self {
            Unit::Element => "element",
            Unit::Record => "record",
        })
    }
}

// Where a row's value stands in a record.
#[derive(Clone, Copy)]
struct InRecord(Row);

impl Display for InRecord {
    fn fmt<W: Write>(&self, f: &mut Formatter<W>) -> fmt::Result {
        let offset = self.0.payload;
        let width = self.0.extent;
        write!(f, ", offset {offset}, width {width}")
    }
}

// The text that a call located, in quotes.
pub fn located(message: &[u8], answer: Result<Span, Refusal>, out: &mut Block) {
    match answer {
        Ok(Span { first, width }) => quoted(out, message, first, width),
        Err(refusal) => refused(out, refusal),
    }
}

// The text at a row.
pub fn text_at(message: Message, row: usize, out: &mut Block) {
    let answer = number_at_row(message.bytes, message.rows, row);
    located(message.bytes, answer, out);
}

// What a row begins with.
fn beginning(r: Row, out: &mut Block) {
    let count = r.count;
    let s = plural(count as usize);
    let mark = mark(r.mark as usize);
    match kind_of(r) {
        Some(Kind::Scalar) => write!(out, "scalar {mark} = "),
        Some(Kind::Text) => out.text(b"text "),
        Some(Kind::HighPrecision) => out.text(b"number "),
        Some(Kind::Key) => out.text(b"key "),
        Some(Kind::Array) => write!(out, "array, {count} value{s}"),
        Some(Kind::Object) => write!(out, "object, {count} pair{s}"),
        Some(Kind::Packed) => write!(out, "packed {mark}, "),
        Some(Kind::Table) if r.mark == Mark::ARRAY as u32 => out.text(b"table by rows, "),
        Some(Kind::Table) => out.text(b"table by columns, "),
        Some(Kind::Leaf) => write!(out, "leaf {mark}{}", InRecord(r)),
        Some(Kind::SchemaRecord) => write!(out, "record, {count} field{s}{}", InRecord(r)),
        Some(Kind::FixedArray) => write!(out, "fixed array, {count} kind{s}{}", InRecord(r)),
        Some(Kind::Dimension) => write!(out, "dimension {mark} = {count}"),
        Some(Kind::Extension) => write!(out, "extension {count}"),
        None => write!(out, "no kind, {count} kind{s}{}", InRecord(r)),
    }
}

// The dimensions, with a sign between two.
fn dimensions(rows: &[u32], row: usize, out: &mut Block) {
    write!(out, "{}", shape::extent(rows, row, 0));
    for j in 1..shape::rank(rows, row) {
        write!(out, " x {}", shape::extent(rows, row, j));
    }
}

// How many elements or records there are: with the dimensions and their order, if all of the rows are held.
fn shape_of(message: Message, row: usize, r: Row, out: &mut Block) {
    let count = r.count;
    let unit = Unit::of(r);
    let s = plural(count as usize);
    if message.is_cut(r) {
        write!(out, "{count} {unit}{s}, not all of its rows held");
        return;
    }
    if r.order == 0 {
        write!(out, "{count} {unit}{s}");
        return;
    }
    let slowest = r.order == 1;
    let pace = if slowest { "slowest" } else { "fastest" };
    dimensions(message.rows, row, out);
    write!(out, " = {count} {unit}{s}, first index {pace}");
}

// The shape of a packed array or a table, and how wide a table's records are.
fn shaped(message: Message, row: usize, r: Row, out: &mut Block) {
    shape_of(message, row, r, out);
    if message.is_cut(r) || Unit::of(r) == Unit::Element {
        return;
    }
    let width = message.row(row.saturating_add(1)).extent;
    write!(out, ", each of {width} byte{}", plural(width as usize));
}

// The bytes of an extension's payload; of more than a line's the first, and how many there are.
fn payload(message: &[u8], r: Row, out: &mut Block) {
    let first = r.payload as usize;
    let length = r.extent as usize;
    if length == 0 {
        out.text(b", no payload");
        return;
    }
    out.text(b" =");
    dump::cells(out, message, first, first + length.min(dump::WIDE));
    if dump::WIDE < length {
        write!(out, "... ({length} bytes)");
    }
}

// The name of an extension's id, if it has one, and its payload.
fn extension(message: &[u8], r: Row, out: &mut Block) {
    if let Some(name) = id(r.count as usize) {
        write!(out, " {name}");
    }
    payload(message, r, out);
}

// A row.
pub fn shown(message: Message, row: usize, out: &mut Block) {
    let r = message.row(row);
    beginning(r, out);
    match kind_of(r) {
        Some(Kind::Scalar) => valued(out, value_at_row(message.bytes, message.rows, row)),
        Some(Kind::Text | Kind::HighPrecision | Kind::Key) => text_at(message, row, out),
        Some(Kind::Packed | Kind::Table) => shaped(message, row, r, out),
        Some(Kind::Extension) => extension(message.bytes, r, out),
        _ => {}
    }
}

// A row's number, and the row.
pub fn numbered(message: Message, row: usize, out: &mut Block) {
    write!(out, "row {row}: ");
    shown(message, row, out);
}
