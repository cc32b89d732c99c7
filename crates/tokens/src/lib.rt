// Tokens that hold no others, but extensions: scalars, texts, high-precision numbers and keys. A row is stored as far as the lent words
// reach; refusal 8 goes by the number of rows lent, so a table of any length serves, and an empty one where only the answer is wanted.
#![tactic(auto)]

pub mod entry;
pub mod scalars;

// Where what was read ends: the place after it, and the row after its rows.
#[derive(Clone, Copy)]
pub struct End {
    pub at: usize,
    pub row: usize,
}

// Where members end: the place after them, the row after theirs, and how many they are.
#[derive(Clone, Copy)]
pub struct Members {
    pub at: usize,
    pub row: usize,
    pub count: usize,
}
