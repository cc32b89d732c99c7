// The rewriter: a message to its house form.
#![tactic(auto)]

pub mod message;
