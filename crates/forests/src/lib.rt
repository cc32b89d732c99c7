// A message's tokens written from its rows, and what is left of rows and output then.
#![tactic(auto)]

pub mod settled;
pub mod walk;
