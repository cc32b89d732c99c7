// The structs and the numbers of the C calls.
#![tactic(auto)]

pub mod answers;
pub mod editions;
