// The slot of a leaf and a record of a table, from the message only: the schema's bytes are walked once, so no row table is needed.
#![tactic(auto)]

mod counts;
mod fields;
pub mod slot;
