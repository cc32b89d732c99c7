// The leaves of a schema.
ghost use Rattle.std.specs.Prelude.{◌≡◌, ℕ, ◌+◌, ◌≤◌, ◌<◌, min, length, Ok};
ghost use Rattle.format.specs.Outcome.{done};
ghost use Rattle.format.specs.Limits.{limit};
ghost use Rattle.format.specs.Schemas.{leaf as leaf_of, plain_leaf, text_leaf};
ghost use Rattle.rows.specs.Row.{ancestry_of};
ghost use Rattle.tokens.specs.Answers.{Here};
ghost use Rattle.kinds.specs.Answers.{over, Meets, Within};

use crate::Kinds;
use format::answers::Kind;
use format::limits::RECORD_LIMIT;
use format::marks::Mark;
use format::refusals::{Refusal, Refused};
use rows::Ancestry;
use scan::integers::integer;
use tokens::entry::put_alone;

// One more than the bytes that a record may have.
pub const OVER: usize = RECORD_LIMIT + 1;

// The offset after so many bytes.
fn offset_after(offset: usize, width: usize) -> usize
    requires { (offset ≤ over) × (width ≤ limit) }
    ensures { result ≡ min (offset + width) over }
{
    (offset + width).min(OVER)
}

// A leaf of so many bytes, given the place after it: its row is stored.
fn leaf(
    rows: &mut [u32],
    mark: u8,
    at: usize,
    row: usize,
    offset: usize,
    width: usize,
    next: usize,
    ancestry: Ancestry,
) -> Kinds
    requires { (row ≤ at) × (at ≤ limit) × (offset ≤ over) × (width ≤ limit) }
    ensures meets { Meets (Ok result) (done (leaf_of mark at width, next)) row offset (ancestry_of ancestry) rows.old rows.new }
    ensures bounds { (low high rows_lent : ℕ) → low ≤ next → next ≤ high → row < rows_lent → row < next → Within (Ok result) low high rows_lent offset }
{
    let end = offset_after(offset, width);
    put_alone(rows, row, Kind::Leaf, mark, at, offset, width, ancestry);
    Kinds {
        at: next,
        row: row + 1,
        offset: end,
    }
}

// One of the thirteen marks, `T` or `Z`.
pub fn plain_leaf(
    message: &[u8],
    rows: &mut [u32],
    lent: usize,
    mark: u8,
    at: usize,
    row: usize,
    offset: usize,
    ancestry: Ancestry,
) -> Result<Kinds, Refused>
    requires { Here message.now lent at row × (at < length message.now) × (offset ≤ over) }
    ensures meets { Meets result (plain_leaf message.now lent mark at row) row offset (ancestry_of ancestry) rows.old rows.new }
    ensures bounds { Within result (at + 1) (length message.now) lent offset }
{
    if lent <= row {
        return Err(Refused(Refusal::NoRowLeft, at));
    }
    let width = Mark(mark).leaf_width();
    Ok(leaf(rows, mark, at, row, offset, width, at + 1, ancestry))
}

// `S` and an integer: so many bytes of text.
pub fn text_leaf(
    message: &[u8],
    rows: &mut [u32],
    lent: usize,
    at: usize,
    row: usize,
    offset: usize,
    ancestry: Ancestry,
) -> Result<Kinds, Refused>
    requires { Here message.now lent at row × (at < length message.now) × (offset ≤ over) }
    ensures meets { Meets result (text_leaf message.now lent at row) row offset (ancestry_of ancestry) rows.old rows.new }
    ensures bounds { Within result (at + 1) (length message.now) lent offset }
{
    if lent <= row {
        return Err(Refused(Refusal::NoRowLeft, at));
    }
    let length = integer(message, at + 1)?;
    let width = length.number as usize;
    Ok(leaf(
        rows,
        Mark::TEXT,
        at,
        row,
        offset,
        width,
        length.next,
        ancestry,
    ))
}
