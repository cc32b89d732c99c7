// Tokens that hold no others: each takes the next row.
use crate::bytes::{is_integer, width};
use crate::content::is_content;
use crate::integers::{bare, integer};
use crate::machine::Machine;
use crate::refusals::{Reason, Refusal};
use crate::table::{Entry, Kind, Order};

// The bytes of a scalar, a text or a number, which stand here, so many; its token began at the place given.
fn content(
    m: &mut Machine<'_, '_>,
    kind: Kind,
    mark: u8,
    first: u32,
    length: u32,
) -> Result<(), Refusal> {
    let payload = m.at;
    let bytes = m.take(length)?;
    if mark != b'T' && !is_content(mark, bytes) {
        return Err(Refusal::new(Reason::Content, payload));
    }
    m.add(Entry {
        kind,
        mark,
        first,
        payload,
        length,
        count: 0,
        order: Order::Without,
    });
    Ok(())
}

// The bytes of a scalar, which stand here; its token began at the place given.
fn payload(m: &mut Machine<'_, '_>, mark: u8, first: u32) -> Result<(), Refusal> {
    m.need_row(first)?;
    content(m, Kind::Scalar, mark, first, width(mark))
}

// A scalar, at its mark.
pub fn scalar(m: &mut Machine<'_, '_>) -> Result<(), Refusal> {
    let first = m.at;
    let mark = m.byte();
    m.skip(1);
    payload(m, mark, first)
}

// A scalar without mark: of the type given.
pub fn unmarked(m: &mut Machine<'_, '_>, mark: u8) -> Result<(), Refusal> {
    let first = m.at;
    if m.end() <= first {
        return Err(m.early());
    }
    payload(m, mark, first)
}

// A text or a number, at its mark.
pub fn text(m: &mut Machine<'_, '_>, kind: Kind) -> Result<(), Refusal> {
    let first = m.at;
    let mark = m.byte();
    m.need_row(first)?;
    m.skip(1);
    let length = integer(m)?;
    content(m, kind, mark, first, length)
}

// A key, at the mark of its length.
pub fn key(m: &mut Machine<'_, '_>) -> Result<(), Refusal> {
    let first = m.at;
    if !is_integer(m.byte()) {
        return Err(m.unexpected());
    }
    m.need_row(first)?;
    let length = integer(m)?;
    content(m, Kind::Key, b'S', first, length)
}

// The number of a dimension, which stands here; its token began at the place given.
fn dimension(m: &mut Machine<'_, '_>, mark: u8, first: u32) -> Result<(), Refusal> {
    m.need_row(first)?;
    let payload = m.at;
    let number = bare(m, mark, first)?;
    m.product = m.product.saturating_mul(number);
    m.add(Entry {
        kind: Kind::Dimension,
        mark,
        first,
        payload,
        length: width(mark),
        count: number,
        order: Order::Without,
    });
    Ok(())
}

// A dimension at its mark.
pub fn marked_dimension(m: &mut Machine<'_, '_>) -> Result<(), Refusal> {
    let first = m.at;
    let mark = m.byte();
    if !is_integer(mark) {
        return Err(m.unexpected());
    }
    m.skip(1);
    dimension(m, mark, first)
}

// A dimension without mark: of the type given.
pub fn bare_dimension(m: &mut Machine<'_, '_>, mark: u8) -> Result<(), Refusal> {
    let first = m.at;
    if m.end() <= first {
        return Err(m.early());
    }
    dimension(m, mark, first)
}
