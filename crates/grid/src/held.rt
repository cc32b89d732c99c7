// The rows that are held of an accepted message, which may have more.
use rows::{Row, count, link, load};

// How many rows the message has: the link of its one value.
pub fn needed(rows: &[u32]) -> usize {
    link(rows, 0)
}

// How many rows before one are held.
pub fn before(rows: &[u32], end: usize) -> usize {
    end.min(count(rows))
}

// Whether some of the rows below a row are not held, where so many are.
pub fn is_cut(held: usize, r: Row) -> bool {
    held < r.link as usize
}

// Whether the row is a packed array's or a table's.
pub fn has_slots(r: Row) -> bool {
    matches!(r.kind, 7 | 8)
}

// Whether the row is a packed array's or a table's, and some of the rows below it are not held: then its slots are not known.
pub fn lacks_rows(rows: &[u32], row: usize) -> bool {
    let r = load(rows, row);
    has_slots(r) && is_cut(count(rows), r)
}

// Whether the message has a row that is not held, or that lacks some below it.
pub fn is_missing(rows: &[u32], row: usize) -> bool {
    row < needed(rows) && (count(rows) <= row || lacks_rows(rows, row))
}
