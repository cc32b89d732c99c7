// What a row writes of its token in house form, put into lent bytes.
#![tactic(auto)]

pub mod by_row;
pub mod kinds;
