// Typed containers: packed arrays, tables and typed objects.
#![tactic(auto)]

pub mod container;
pub mod packed;
pub mod table;
pub mod types;
