// The rows of a packed array, or of a table with one leaf alone: an address call goes through few rows there, and answers the same.
// Where a leaf's slots stand goes by the rows of the table, its schema, the top-level field, the leaf and the dimensions.
use crate::way::Way;
use format::answers::Kind;
use format::marks::Mark;
use grid::shape;
use rows::{Row, load, store};

// The row of the leaf. Before it stand the table, its schema, a key and the field.
pub const LEAF: usize = 4;

const FIELD: usize = 3;

// The parents: the packed array or table, its schema and the field, each by its row plus one.
const TABLE: u32 = 1;

const SCHEMA: u32 = 2;

const HOLDER: u32 = 4;

// A row with another link, held by the row before `parent`, or by none where this is 0.
fn linked(rows: &[u32], row: usize, link: usize, parent: u32) -> Row {
    Row {
        link: u32::try_from(link).unwrap_or(u32::MAX),
        parent,
        ..load(rows, row)
    }
}

// How many dimensions there are.
fn many(rows: &[u32], row: usize) -> usize {
    if load(rows, row).order == 0 {
        return 0;
    }
    shape::rank(rows, row)
}

// Stores so many dimensions from a row on, from a place on.
fn dimensions(rows: &[u32], first: usize, count: usize, start: usize, into: &mut [u32; 130]) {
    for j in 0..count {
        let to = start.saturating_add(j);
        let dimension = linked(rows, first.saturating_add(j), to.saturating_add(1), TABLE);
        store(into, to, dimension);
    }
}

// A packed array, with its dimensions.
fn packed(rows: &[u32], row: usize, into: &mut [u32; 130]) {
    let count = many(rows, row);
    store(into, 0, linked(rows, row, count.saturating_add(1), 0));
    dimensions(rows, row.saturating_add(1), count, 1, into);
}

// The top-level field of a leaf, as a fixed array that holds it.
fn field(rows: &[u32], row: usize) -> Row {
    Row {
        kind: Kind::FixedArray.number(),
        mark: Mark::ARRAY as u32,
        ..linked(rows, row, LEAF + 1, SCHEMA)
    }
}

// A table, its schema, a key, a top-level field and a leaf, and the dimensions.
fn table(rows: &[u32], row: usize, top: usize, leaf: usize, into: &mut [u32; 130]) {
    let count = many(rows, row);
    store(
        into,
        0,
        linked(rows, row, count.saturating_add(LEAF + 1), 0),
    );
    store(
        into,
        1,
        linked(rows, row.saturating_add(1), LEAF + 1, TABLE),
    );
    store(into, 2, linked(rows, row.saturating_add(2), FIELD, SCHEMA));
    store(into, FIELD, field(rows, top));
    store(into, LEAF, linked(rows, leaf, LEAF + 1, HOLDER));
    dimensions(rows, shape::schema_end(rows, row), count, LEAF + 1, into);
}

// The rows of a table with the leaf that a way leads to; of a packed array where it leads to none.
pub fn alone(rows: &[u32], row: usize, way: &Way) -> [u32; 130] {
    let mut into = [0u32; 130];
    match (way.field(), way.end()) {
        (Some(top), Some(leaf)) => table(rows, row, top, leaf, &mut into),
        _ => packed(rows, row, &mut into),
    }
    into
}
