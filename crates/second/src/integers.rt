// Integers: of an integer record, and bare.
use crate::bytes::{is_integer, is_signed, width};
use crate::machine::Machine;
use crate::refusals::{Reason, Refusal};

// The most that a length, a count, a dimension and a product may be.
pub const LIMIT: u32 = 1_048_576;

// The most that an extension's id may be.
const ID_LIMIT: u32 = 4_294_967_295;

// The number of some bytes, the lowest first: from the last byte down, each moves up what is there.
fn little(bytes: &[u8]) -> u64 {
    bytes
        .iter()
        .rev()
        .fold(0, |value, b| (value << 8) | u64::from(*b))
}

// Whether the number's last byte has the bit of its sign.
fn is_negative(mark: u8, bytes: &[u8]) -> bool {
    is_signed(mark) && bytes.last().is_some_and(|b| 127 < *b)
}

// The number that stands here, of a mark, up to a limit; a refusal of it is at the place given.
fn limited(m: &mut Machine<'_, '_>, mark: u8, place: u32, limit: u32) -> Result<u32, Refusal> {
    let bytes = m.take(width(mark))?;
    if is_negative(mark, bytes) {
        return Err(Refusal::new(Reason::Integer, place));
    }
    let value = little(bytes);
    if u64::from(limit) < value {
        return Err(Refusal::new(Reason::Limit, place));
    }
    Ok(value as u32)
}

// The number that stands here, of a mark; a refusal of it is at the place given.
pub fn bare(m: &mut Machine<'_, '_>, mark: u8, place: u32) -> Result<u32, Refusal> {
    limited(m, mark, place, LIMIT)
}

// The integer record that stands here, up to a limit.
fn record(m: &mut Machine<'_, '_>, limit: u32) -> Result<u32, Refusal> {
    let place = m.at;
    let mark = m.byte();
    if !is_integer(mark) {
        return Err(m.unexpected());
    }
    m.skip(1);
    limited(m, mark, place, limit)
}

// The integer record that stands here: a length or a count.
pub fn integer(m: &mut Machine<'_, '_>) -> Result<u32, Refusal> {
    record(m, LIMIT)
}

// The integer record of an extension's id, which stands here.
pub fn id(m: &mut Machine<'_, '_>) -> Result<u32, Refusal> {
    record(m, ID_LIMIT)
}
