// Text answers: the part of the caller's message itself, and its place or the refusal's number.
#![tactic(auto)]

pub mod at_rows;
pub mod parts;
