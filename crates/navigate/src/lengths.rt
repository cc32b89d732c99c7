// About how long the names of leaves are, as they are shown.
use crate::message::Message;
use crate::way::{Member, Way};

// The bytes that are reckoned for a place in a fixed array.
const PLACE: usize = 8;

// The bytes of a name that are reckoned: of a longer one no more are shown.
const NAME: usize = 64;

// The bytes that a byte of a name is shown by.
fn shown_by(b: u8) -> usize {
    match b {
        0x20..0x7F => 1,
        _ => 4,
    }
}

// About the bytes that a name is shown by.
fn name_length(name: &[u8]) -> usize {
    name.iter()
        .fold(0, |n: usize, b| n.saturating_add(shown_by(*b)))
}

// The bytes of the part that a member adds: of its key's name, or of its place in a fixed array.
fn part_length(message: Message, member: Member) -> usize {
    let Some(row) = message.key(member.row) else {
        return PLACE;
    };
    let key = message.row(row);
    let first = key.payload as usize;
    let end = first + NAME.min(key.extent as usize);
    message.bytes.get(first..end).map_or(0, name_length)
}

// About the bytes that a leaf's name is shown by.
pub fn length(message: Message, way: &Way) -> usize {
    way.members().iter().fold(0, |n: usize, member| {
        n.saturating_add(part_length(message, *member))
    })
}
