// The leaves that look at bytes: one byte, integers, `N`.
#![tactic(auto)]

pub mod bytes;
pub mod integers;
pub mod noops;
