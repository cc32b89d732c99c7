// Dimensions, each with a row, and their product.
#![tactic(auto)]

pub mod forms;
pub mod products;

// Where dimensions that were read end: the place after them, the row after their rows, and their product, which is one over the limit
// where it would be more.
#[derive(Clone, Copy)]
pub struct Dims {
    pub at: usize,
    pub row: usize,
    pub many: usize,
}
