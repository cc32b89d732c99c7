// What the programs show to a person: texts, values and bytes, put into blocks of output.
#![tactic(auto)]

pub mod dump;
pub mod floats;
pub mod quoted;
pub mod scalars;
