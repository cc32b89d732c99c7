// The room for slots: about how many bytes of output they take, and how many there are for those of a message.
use crate::lengths::length;
use crate::message::Message;
use crate::way::Leaves;
use grid::shape;

// The bytes that are reckoned for a slot, besides its name.
const SLOT: usize = 64;

// The bytes of output for the slots of a message: enough for all slots that have bytes, with names of up to 64.
pub fn all(message: Message) -> usize {
    (message.bytes.len().min(1_048_576) + 4_096) * 256
}

// About the bytes of output for an element or a record.
pub fn cost(message: Message, row: usize) -> usize {
    if shape::is_packed(message.rows, row) {
        return SLOT;
    }
    let mut bytes: usize = 0;
    for way in Leaves::of(message.rows, row) {
        bytes = bytes.saturating_add(SLOT.saturating_add(length(message, &way)));
    }
    bytes
}
