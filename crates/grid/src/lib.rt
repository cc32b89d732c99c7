// Packed arrays and tables of an accepted message, by the number of an element or a record: their shape, their slots and what is in
// them; and which of a message's rows are held.
#![tactic(auto)]

pub mod ask;
pub mod held;
pub mod shape;
