// Arrays and objects, and what nests in them.
#![tactic(auto)]

pub mod values;
