// What stands after a `#`: a plain count or a dimension vector.
ghost use Rattle.std.specs.Prelude.{◌≡◌, List, ℕ, ◌+◌, ◌≤◌, ◌<◌, length};
ghost use Rattle.format.specs.Rows.{Ancestry as AncestryIn};
ghost use Rattle.format.specs.Dimensions.{slowest as slowest_at, fastest as fastest_at, plain as plain_at, shape as shape_at};
ghost use Rattle.rows.specs.Row.{ancestry_of};
ghost use Rattle.tokens.specs.Answers.{Here};
ghost use Rattle.shapes.specs.Answers.{order_number, Shapes, ShapeWithin};

use crate::vectors::vector;
use format::marks::Mark;
use format::refusals::{Refusal, Refused};
use rows::Ancestry;
use scan::integers::integer;

// How elements follow one another: those of a plain count, or of dimensions.
#[derive(Clone, Copy, PartialEq, Eq)]
pub enum Order {
    Plain,
    FirstSlowest,
    FirstFastest,
}

impl Order {
    // The number that stands in rows.
    pub fn number(self) -> u32
        ensures { result ≡ order_number self }
    {
        match self {
            Order::Plain => 0,
            Order::FirstSlowest => 1,
            Order::FirstFastest => 2,
        }
    }
}

// What stands after a `#`: the place after it, the row after the dimensions' rows, how many elements there are, which is one over the
// limit where it would be more, and their order.
#[derive(Clone, Copy)]
pub struct Shaped {
    pub at: usize,
    pub row: usize,
    pub many: usize,
    pub order: Order,
}

// A vector: first index slowest.
fn slowest(
    message: &[u8],
    rows: &mut [u32],
    lent: usize,
    at: usize,
    row: usize,
    ancestry: Ancestry,
) -> Result<Shaped, Refused>
    requires { Here message.now lent at row × (at < length message.now) }
    ensures meets { Shapes result (slowest_at message.now lent at row) row (ancestry_of ancestry) rows.old rows.new }
    ensures bounds { ShapeWithin result (at + 1) (length message.now) lent }
{
    let dims = vector(message, rows, lent, at, at + 1, row, ancestry)?;
    Ok(Shaped {
        at: dims.at,
        row: dims.row,
        many: dims.many,
        order: Order::FirstSlowest,
    })
}

// A vector inside a further `[` and `]`: first index fastest.
fn fastest(
    message: &[u8],
    rows: &mut [u32],
    lent: usize,
    at: usize,
    row: usize,
    ancestry: Ancestry,
) -> Result<Shaped, Refused>
    requires { Here message.now lent at row × (at + 1 < length message.now) }
    ensures meets { Shapes result (fastest_at message.now lent at row) row (ancestry_of ancestry) rows.old rows.new }
    ensures bounds { ShapeWithin result (at + 1) (length message.now) lent }
{
    let dims = vector(message, rows, lent, at, at + 2, row, ancestry)?;
    let next = dims.at;
    let end = message.len();
    if end <= next {
        return Err(Refused(Refusal::EndsTooEarly, end));
    }
    if message[next] != Mark::ARRAY_END {
        return Err(Refused(Refusal::NotAllowed, next));
    }
    Ok(Shaped {
        at: next + 1,
        row: dims.row,
        many: dims.many,
        order: Order::FirstFastest,
    })
}

// An integer: a plain count, which has no rows.
fn plain(message: &[u8], at: usize, row: usize) -> Result<Shaped, Refused>
    ensures meets { (rows_lent : ℕ) (ancestry : AncestryIn) (words : List ℕ) → Shapes result (plain_at message.now rows_lent at) row ancestry words words }
    ensures bounds { (rows_lent : ℕ) → row ≤ rows_lent → row ≤ at → ShapeWithin result (at + 1) (length message.now) rows_lent }
{
    let count = integer(message, at)?;
    Ok(Shaped {
        at: count.next,
        row,
        many: count.number as usize,
        order: Order::Plain,
    })
}

// An integer or a dimension vector, which may be wrapped or not.
pub fn shape(
    message: &[u8],
    rows: &mut [u32],
    lent: usize,
    wraps: bool,
    at: usize,
    row: usize,
    ancestry: Ancestry,
) -> Result<Shaped, Refused>
    requires { Here message.now lent at row }
    ensures meets { Shapes result (shape_at message.now lent wraps at row) row (ancestry_of ancestry) rows.old rows.new }
    ensures bounds { ShapeWithin result (at + 1) (length message.now) lent }
{
    let end = message.len();
    if end <= at {
        return Err(Refused(Refusal::EndsTooEarly, end));
    }
    if message[at] != Mark::ARRAY {
        return plain(message, at, row);
    }
    let second = at + 1;
    if end <= second {
        return Err(Refused(Refusal::EndsTooEarly, end));
    }
    if message[second] != Mark::ARRAY {
        return slowest(message, rows, lent, at, row, ancestry);
    }
    if wraps {
        return fastest(message, rows, lent, at, row, ancestry);
    }
    slowest(message, rows, lent, at, row, ancestry)
}
