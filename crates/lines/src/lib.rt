// Lines of test data, as the programs read and write them.
#![tactic(auto)]

pub mod input;
pub mod numbers;
pub mod show;
pub mod signed;
pub mod text;
mod words;
