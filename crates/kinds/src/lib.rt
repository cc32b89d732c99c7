// Leaves of a schema, and what a record or a fixed array begins with.
#![tactic(auto)]

pub mod leaves;
pub mod starts;

// Where a kind ends: the place after it, the row after its rows, and the offset in the record after it. Offsets are told apart up to a
// record's limit: 65,537 stands for all beyond.
#[derive(Clone, Copy)]
pub struct Kinds {
    pub at: usize,
    pub row: usize,
    pub offset: usize,
}
