// Scalar values: half to single, the value of bytes under a mark, the value at a row.
#![tactic(auto)]

pub mod at_rows;
pub mod floats;
pub mod half;
pub mod scalars;
