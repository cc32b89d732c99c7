// Counts and dimension vectors: what stands after a `#`. Dimensions have rows; `counts::shape` is what the containers call.
#![tactic(auto)]

pub mod counts;
mod vectors;
