// Schemas: the records and fixed arrays of a table, whose leaves `kinds` reads. The definition reads a schema without offsets and sets
// them afterwards; here a row is stored with its offset at once.
#![tactic(auto)]

pub mod groups;
