// Ways through the rows of an accepted message: those that lead to a leaf, those that bytes belong to; and the room for slots.
#![tactic(auto)]

pub mod lengths;
pub mod message;
pub mod narrowed;
pub mod room;
pub mod walk;
pub mod way;
