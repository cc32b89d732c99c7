// The search for a leaf over the bytes of a schema.
#![tactic(auto)]

pub mod kinds;
pub mod leaves;
