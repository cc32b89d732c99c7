// Members read one after another in a loop that calls nothing of the reader: scalars, short texts, and keys with these. It changes no
// answer: the reader reads the same members one by one, and reads what is left to it here.
#![tactic(auto)]

pub mod members;
