// A message in words: the verdict, a row, the rows as a table, the row that names lead to.
#![tactic(auto)]

pub mod names;
pub mod row;
pub mod tree;
pub mod verdict;
