// What is shown of an accepted message besides its rows: its bytes, one slot by its address; and all that is asked for.
#![tactic(auto)]

pub mod accepted;
pub mod address;
pub mod bytes;
