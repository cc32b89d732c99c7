// Packed arrays, and the row of what is stored under a type.
ghost use Rattle.std.specs.Prelude.{◌≡◌, true, List, ℕ, ◌+◌, ◌≤◌, ◌<◌, length};
ghost use Rattle.format.specs.Marks.{is_type};
ghost use Rattle.format.specs.Tokens.{Forest, none, node, size, members};
ghost use Rattle.format.specs.Rows.{held_by, rows as rows_of};
ghost use Rattle.format.specs.Containers.{packed as packed_at};
ghost use Rattle.rows.specs.Overlay.{lay};
ghost use Rattle.rows.specs.Row.{ancestry_of};
ghost use Rattle.tokens.specs.Answers.{token_of, Meets, Here, Within};
ghost use Rattle.typed.specs.Stored.{checked, StoredWithin};

use contents::packed::packed_contents;
use format::answers::Kind;
use format::limits::LIMIT;
use format::marks::Mark;
use format::refusals::{Refusal, Refused};
use rows::{Ancestry, held_by};
use shapes::counts::shape;
use tokens::End;
use tokens::entry::{Entry, put};

// The row of a packed array or table over what was read of its header, or the first wrong place of its content; `link` is the row
// after.
pub fn store_row(
    rows: &mut [u32],
    row: usize,
    e: Entry,
    link: usize,
    content: Option<usize>,
    ancestry: Ancestry,
) -> Result<End, Refused>
    requires { StoredWithin e link }
    ensures meets { (before : List ℕ) (under : Forest) → link ≡ row + 1 + size under → rows.old ≡ lay before (row + 1) (rows_of (row + 1) (held_by row (ancestry_of ancestry)) under)
        → Meets result (checked content (node (token_of e) under none, e.payload + e.extent)) row (members (node (token_of e) under none)) (ancestry_of ancestry) before rows.new }
    ensures bounds { (low high lent : ℕ) → low ≤ e.payload → e.payload + e.extent ≤ high → link ≤ lent → link ≤ e.payload → Within result low high lent }
{
    match content {
        Some(place) => Err(Refused(Refusal::WrongContent, place)),
        None => {
            let end = e.payload + e.extent;
            put(rows, row, e, link, ancestry);
            Ok(End { at: end, row: link })
        }
    }
}

// The packed array at `at` of elements under one of the thirteen marks, with its count at `from`.
pub fn packed(
    message: &[u8],
    rows: &mut [u32],
    lent: usize,
    mark: u8,
    from: usize,
    at: usize,
    row: usize,
    ancestry: Ancestry,
) -> Result<End, Refused>
    requires { Here message.now lent at row × (row < lent) × (at < from) × (from ≤ length message.now) × (is_type mark ≡ true) × (ancestry.depth ≤ at) }
    ensures meets { Meets result (packed_at message.now lent mark from at row) row 1 (ancestry_of ancestry) rows.old rows.new }
    ensures bounds { Within result (at + 1) (length message.now) lent }
{
    let below = row + 1;
    let children = held_by(row, ancestry);
    let count = shape(message, rows, lent, true, from, below, children)?;
    let many = count.many;
    if (LIMIT as usize) < many {
        return Err(Refused(Refusal::OverLimit, at));
    }
    let next = count.at;
    let end = message.len();
    let extent = many * Mark(mark).width();
    if end - next < extent {
        return Err(Refused(Refusal::EndsTooEarly, end));
    }
    let content = packed_contents(message, mark, next, many);
    let e = Entry {
        kind: Kind::Packed,
        mark,
        first: at,
        payload: next,
        extent,
        count: many,
        order: count.order.number(),
    };
    store_row(rows, row, e, count.row, content, ancestry)
}
