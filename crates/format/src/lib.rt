// The format that document 01 sets out: its definitions are in specs/; here are the limits, the mark type and the types of the answers.
#![tactic(auto)]

pub mod answers;
pub mod limits;
pub mod marks;
pub mod refusals;
