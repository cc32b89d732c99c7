// Extensions: `E`, an id, a length and so many bytes.
use crate::integers::{id, integer};
use crate::machine::Machine;
use crate::refusals::{Reason, Refusal};
use crate::table::{Entry, Kind, Order};

// Whether an id takes a length; an opaque one takes any.
fn takes(id: u32, length: u32) -> bool {
    match id {
        1 | 4 | 5 => length == 4,
        2 | 6 | 7 | 8 => length == 8,
        3 => length == 12,
        9 | 10 => length == 16,
        _ => true,
    }
}

// An extension, at its mark, which only one edition has: its size is looked at first, then its end.
pub fn extension(m: &mut Machine<'_, '_>) -> Result<(), Refusal> {
    let first = m.at;
    if !m.extensions {
        return Err(m.unexpected());
    }
    m.need_row(first)?;
    m.skip(1);
    let id = id(m)?;
    let length = integer(m)?;
    let payload = m.at;
    if !takes(id, length) {
        return Err(Refusal::new(Reason::Content, first));
    }
    m.take(length)?;
    m.add(Entry {
        kind: Kind::Extension,
        mark: b'E',
        first,
        payload,
        length,
        count: id,
        order: Order::Without,
    });
    Ok(())
}
