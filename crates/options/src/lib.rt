// The command line of the program that shows messages: what it asks for, what is wrong with it, and help.
#![tactic(auto)]

pub mod arguments;
pub mod faults;
pub mod help;
pub mod lists;
pub mod words;
