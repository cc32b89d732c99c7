// The slots of an accepted message, one or all, and why an address has none.
#![tactic(auto)]

pub mod address;
pub mod leaf_names;
pub mod one_slot;
pub mod reasons;
pub mod slot_lists;
