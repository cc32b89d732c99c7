// The content of payloads. A table's is checked a leaf at a time: the schema's bytes are walked again, so no row table is needed, and
// each leaf's values are looked at once.
#![tactic(auto)]

pub mod layouts;
pub mod packed;
pub mod tables;
pub mod walk;
