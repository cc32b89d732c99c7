// The payloads of packed arrays and tables: how long they are, and what stands in them.
use crate::bytes::width;
use crate::content::{is_char, is_content};
use crate::frames::{Frame, Members};
use crate::integers::LIMIT;
use crate::machine::Machine;
use crate::numbers::number;
use crate::refusals::{Reason, Refusal};
use crate::table::{Entry, Kind};

// The most bytes of a record.
const RECORD: u32 = 65_536;

// A value of a table: the rows of its kinds, its bytes, and where they begin in the record.
#[derive(Clone, Copy)]
struct Extent {
    from: u32,
    to: u32,
    offset: u32,
    bytes: u32,
}

// What the row of a record, or of a field's kind, says.
fn extent_of(m: &Machine<'_, '_>, row: u32) -> Extent {
    Extent {
        from: row,
        to: m.rows.link(row),
        offset: m.rows.offset(row),
        bytes: m.rows.bytes(row),
    }
}

// The place of the first wrong char of a packed array, between two places.
fn wrong_char(m: &Machine<'_, '_>, from: u32, end: u32) -> Option<u32> {
    let wrong = m.between(from, end).iter().position(|b| !is_char(*b))?;
    Some(from.saturating_add(number(wrong)))
}

// The place of the first wrong leaf of one value, which begins at a place.
fn wrong_leaf(m: &Machine<'_, '_>, value: Extent, at: u32) -> Option<u32> {
    for row in value.from..value.to {
        if let Some(mark) = m.rows.leaf_mark(row) {
            let offset = m.rows.offset(row).saturating_sub(value.offset);
            let first = at.saturating_add(offset);
            let end = first.saturating_add(m.rows.bytes(row));
            if !is_content(mark, m.between(first, end)) {
                return Some(first);
            }
        }
    }
    None
}

// The place of the first wrong leaf of so many values that stand end to end from a place on.
fn wrong_value(m: &Machine<'_, '_>, value: Extent, from: u32, values: u32) -> Option<u32> {
    if value.bytes == 0 {
        return None;
    }
    for i in 0..values {
        let at = from.saturating_add(value.bytes.saturating_mul(i));
        let wrong = wrong_leaf(m, value, at);
        if wrong.is_some() {
            return wrong;
        }
    }
    None
}

// The place of the first wrong leaf of a table by columns: each field of the schema is one column. A field's row says where the next
// key is, so that no range lists the keys and the loop follows the rows.
fn wrong_column(m: &Machine<'_, '_>, schema: Extent, from: u32, records: u32) -> Option<u32> {
    let mut key = schema.from.saturating_add(1);
    while key < schema.to {
        let field = extent_of(m, key.saturating_add(1));
        let first = from.saturating_add(records.saturating_mul(field.offset));
        let wrong = wrong_value(m, field, first, records);
        if wrong.is_some() || field.to <= key {
            return wrong;
        }
        key = field.to;
    }
    None
}

// The place of the first wrong content of the payload that stands here.
fn wrong(m: &Machine<'_, '_>, f: Frame, end: u32) -> Option<u32> {
    match f.members {
        Members::Any => None,
        Members::Marked(mark) if mark == b'C' => wrong_char(m, m.at, end),
        Members::Marked(_) => None,
        Members::Records => {
            let schema = extent_of(m, f.row.saturating_add(1));
            if f.mark == b'[' {
                wrong_value(m, schema, m.at, m.product)
            } else {
                wrong_column(m, schema, m.at, m.product)
            }
        }
    }
}

// The bytes of one element or record.
fn unit(m: &Machine<'_, '_>, f: Frame) -> u32 {
    match f.members {
        Members::Any => 0,
        Members::Marked(mark) => width(mark),
        Members::Records => m.offset,
    }
}

// Stores the row of a packed array or a table, and goes past its payload.
fn close(m: &mut Machine<'_, '_>, f: Frame, length: u32) {
    let (kind, mark) = match f.members {
        Members::Any => (Kind::Packed, 0),
        Members::Marked(mark) => (Kind::Packed, mark),
        Members::Records => (Kind::Table, f.mark),
    };
    m.stack.pop();
    m.store(
        f.row,
        Entry {
            kind,
            mark,
            first: f.first,
            payload: m.at,
            length,
            count: m.product,
            order: m.order,
        },
    );
    m.skip(length);
}

// The payload, which stands here: product or record size, payload end, content.
pub fn payload(m: &mut Machine<'_, '_>, f: Frame) -> Result<(), Refusal> {
    let bytes = unit(m, f);
    if LIMIT < m.product || RECORD < bytes {
        return Err(Refusal::new(Reason::Limit, f.first));
    }
    let length = m.product.saturating_mul(bytes);
    let end = m.at.saturating_add(length);
    if m.end() < end {
        return Err(m.early());
    }
    if let Some(place) = wrong(m, f, end) {
        return Err(Refusal::new(Reason::Content, place));
    }
    close(m, f, length);
    Ok(())
}
