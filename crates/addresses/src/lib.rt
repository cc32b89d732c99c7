// The slots that addresses name, in rows that may come from anywhere.
#![tactic(auto)]

pub mod calls;
pub mod slots;
