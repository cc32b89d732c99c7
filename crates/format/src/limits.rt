// The limits that more than one crate tests.

// Of a message's bytes, of a length, a count, a dimension and a product of dimensions.
pub const LIMIT: u32 = 1_048_576;

// Of an extension's id.
pub const ID_LIMIT: u32 = 4_294_967_295;

// Of a record's bytes.
pub const RECORD_LIMIT: usize = 65_536;

// Of a vector's dimensions.
pub const DIMENSION_LIMIT: usize = 8;

// Of the nesting of values, the outermost container being 1.
pub const VALUE_LEVELS: usize = 32;

// Of a schema's nesting, the outer schema being 1.
pub const SCHEMA_LEVELS: usize = 8;
