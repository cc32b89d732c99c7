// Extensions: an id, a length and so many bytes.
use crate::integers::{any_record, fitting_record, integer};
use crate::page::Page;
use crate::values::elements;

// Opaque ids: the largest that a mark holds, one more, and those about the limit of a length.
const OPAQUE: [u32; 8] = [
    255,
    256,
    65_536,
    1_048_576,
    1_048_577,
    0x7FFF_FFFF,
    0x8000_0000,
    0xFFFF_FFFF,
];

// Ids that are refused: negative, or of more than 32 bits.
const WRONG: [(u8, u64); 8] = [
    (b'i', 0xFF),
    (b'I', 0x8001),
    (b'l', 0x8000_0000),
    (b'L', 0xFFFF_FFFF_FFFF_FFFF),
    (b'L', 0x1_0000_0000),
    (b'M', 0x1_0000_0000),
    (b'L', 0x7F00_0000_0000_0001),
    (b'M', 0x8000_0000_0000_0001),
];

// The bytes that an id asks for; none of an opaque one, which takes any number.
fn size(id: u32) -> Option<u32> {
    match id {
        1 | 4 | 5 => Some(4),
        2 | 6 | 7 | 8 => Some(8),
        3 => Some(12),
        9 | 10 => Some(16),
        _ => None,
    }
}

// Draws an id: most often one that asks for a size, or 0 or 11 beside those; else an opaque one.
fn drawn_id(page: &mut Page<'_>) -> u32 {
    if page.draw(4) != 0 {
        return page.draw(12);
    }
    OPAQUE[page.draw(8) as usize]
}

// Writes an id; as a fault one that is refused.
fn put_id(page: &mut Page<'_>, id: u32) {
    if page.slip(12) {
        any_record(page, &WRONG);
    } else {
        fitting_record(page, id);
    }
}

// Draws a length: the one that the id asks for; of an opaque id few, none too, or now and then more than a byte can say; as a fault
// such a length for any id.
fn length(page: &mut Page<'_>, id: u32) -> u32 {
    let slip = page.slip(6);
    let most = if page.draw(16) == 0 { 400 } else { 20 };
    let drawn = page.draw(most);
    match size(id) {
        Some(asked) if !slip => asked,
        _ => drawn,
    }
}

// Writes so many bytes; as a fault fewer.
fn payload(page: &mut Page<'_>, bytes: u32) {
    let written = if page.slip(16) {
        page.draw(bytes)
    } else {
        bytes
    };
    elements(page, b'B', written);
}

// Writes an extension.
pub fn extension(page: &mut Page<'_>) {
    let id = drawn_id(page);
    let bytes = length(page, id);
    page.put(b'E');
    put_id(page, id);
    integer(page, bytes);
    payload(page, bytes);
}
