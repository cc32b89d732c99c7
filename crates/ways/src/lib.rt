// The way through lent rows, which may come from anywhere: what a row must be, the row that its link leads to, the dimensions of a
// container, and the field of a schema that a leaf belongs to.
#![tactic(auto)]

pub mod dimensions;
pub mod links;
pub mod members;
pub mod needs;
