// What an address reads: the value or the text in its slot, in rows that may come from anywhere.
#![tactic(auto)]

pub mod text;
pub mod value;
