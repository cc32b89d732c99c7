// Words, names and numbers, put into blocks of output.
#![tactic(auto)]

pub mod block;
pub mod names;
