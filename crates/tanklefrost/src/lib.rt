// The C interface, as include/tanklefrost.h declares it: every call for all inputs, by the definitions that the Rattle calls have.
#![tactic(auto)]

pub mod messages;
pub mod rows_calls;
