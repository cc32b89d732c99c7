// The reader: any bytes to an answer, and to rows.
#![tactic(auto)]

pub mod message;
