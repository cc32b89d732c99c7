// Typed objects: keys, each followed by its value without mark.
ghost use Rattle.std.specs.Prelude.{◌+◌, ◌≤◌, ◌<◌, length};
ghost use Rattle.format.specs.Limits.{limit};
ghost use Rattle.format.specs.Marks.{brace, width};
ghost use Rattle.format.specs.Sequences.{repeat};
ghost use Rattle.format.specs.Containers.{counted};
ghost use Rattle.rows.specs.Row.{ancestry_of};
ghost use Rattle.tokens.specs.Answers.{Meets, Here, Within};
ghost use Rattle.containers.specs.Lists.{ListMeets, ListWithin, pair_of};

use crate::lists::close;
use format::refusals::Refused;
use rows::{Ancestry, held_by};
use scan::integers::integer;
use tokens::scalars::{key, unmarked};
use tokens::{End, Members};

// A key, and a value without mark.
fn pair(
    message: &[u8],
    rows: &mut [u32],
    lent: usize,
    mark: u8,
    at: usize,
    row: usize,
    ancestry: Ancestry,
) -> Result<End, Refused>
    requires { Here message.now lent at row × (0 < width mark) }
    ensures meets { Meets result (pair_of message.now lent mark at row) row 1 (ancestry_of ancestry) rows.old rows.new }
    ensures bounds { Within result (at + 1) (length message.now) lent }
{
    let end = key(message, rows, lent, at, row, ancestry)?;
    unmarked(message, rows, lent, mark, end.at, end.row, ancestry)
}

// n of them, from `start` and `first` on.
fn pairs(
    message: &[u8],
    rows: &mut [u32],
    lent: usize,
    mark: u8,
    n: usize,
    start: usize,
    first: usize,
    ancestry: Ancestry,
) -> Result<Members, Refused>
    requires { Here message.now lent start first × (n ≤ limit) × (0 < width mark) }
    ensures meets { ListMeets result (repeat n (pair_of message.now lent mark) start first) first (ancestry_of ancestry) rows.old rows.new }
    ensures bounds { ListWithin result start (length message.now) lent }
{
    let mut end = End {
        at: start,
        row: first,
    };
    for count in 0..n {
        end = pair(message, rows, lent, mark, end.at, end.row, ancestry)?;
    }
    Ok(Members {
        at: end.at,
        row: end.row,
        count: n,
    })
}

// The typed object at `at`, with its count at `from`.
pub fn typed_object(
    message: &[u8],
    rows: &mut [u32],
    lent: usize,
    mark: u8,
    from: usize,
    at: usize,
    row: usize,
    ancestry: Ancestry,
) -> Result<End, Refused>
    requires { Here message.now lent at row × (row < lent) × (at < from) × (from ≤ length message.now) × (0 < width mark) × (ancestry.depth ≤ at) }
    ensures meets { Meets result (counted message.now lent brace (pair_of message.now lent mark) from at row) row 1 (ancestry_of ancestry) rows.old rows.new }
    ensures bounds { Within result (at + 1) (length message.now) lent }
{
    let below = row + 1;
    let children = held_by(row, ancestry);
    let count = integer(message, from)?;
    let n = count.number as usize;
    let start = count.next;
    let list = pairs(message, rows, lent, mark, n, start, below, children);
    close(rows, true, at, row, start, 0, list, ancestry)
}
