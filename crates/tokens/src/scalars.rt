// Scalars, texts, high-precision numbers and keys.
ghost use Rattle.std.specs.Prelude.{◌≡◌, ℕ, ◌+◌, ◌≤◌, ◌<◌, length};
ghost use Rattle.format.specs.Limits.{limit};
ghost use Rattle.format.specs.Marks.{width};
ghost use Rattle.format.specs.Tokens.{alone, uncounted, members};
ghost use Rattle.format.specs.Answers.{answered, kind_of};
ghost use Rattle.format.specs.Content.{payload_end};
ghost use Rattle.format.specs.Scalars.{scalar as scalar_at, unmarked as unmarked_at, text as text_at, key as key_at};
ghost use Rattle.rows.specs.Row.{ancestry_of};
ghost use Rattle.tokens.specs.Answers.{PlaceWithin, Meets, Here, Within};

use crate::End;
use crate::entry::put_alone;
use content::is_content;
use format::answers::Kind;
use format::limits::LIMIT;
use format::marks::Mark;
use format::refusals::{Refusal, Refused};
use rows::Ancestry;
use scan::integers::{integer, number};

// A payload of n bytes under a mark: the message's end, then the content.
pub fn payload_end(message: &[u8], mark: u8, start: usize, n: usize) -> Result<usize, Refused>
    ensures is { answered result ≡ payload_end message.now mark start n }
    ensures bounds { PlaceWithin result (start + n) (length message.now) }
{
    let end = message.len();
    if end < start {
        return Err(Refused(Refusal::EndsTooEarly, end));
    }
    if end - start < n {
        return Err(Refused(Refusal::EndsTooEarly, end));
    }
    let next = start + n;
    if !is_content(mark, &message[start..next]) {
        return Err(Refused(Refusal::WrongContent, start));
    }
    Ok(next)
}

// A scalar under a mark, whose payload starts at `start`.
pub fn scalar(
    message: &[u8],
    rows: &mut [u32],
    lent: usize,
    mark: u8,
    start: usize,
    at: usize,
    row: usize,
    ancestry: Ancestry,
) -> Result<End, Refused>
    requires { Here message.now lent at row × (at ≤ start) × (start ≤ length message.now) × (row < start + width mark) }
    ensures meets { Meets result (scalar_at message.now lent mark start at row) row 1 (ancestry_of ancestry) rows.old rows.new }
    ensures bounds { Within result start (length message.now) lent }
{
    if lent <= row {
        return Err(Refused(Refusal::NoRowLeft, at));
    }
    let width = Mark(mark).width();
    let next = payload_end(message, mark, start, width)?;
    put_alone(rows, row, Kind::Scalar, mark, at, start, width, ancestry);
    Ok(End {
        at: next,
        row: row + 1,
    })
}

// A value without mark, whose type's mark is given.
pub fn unmarked(
    message: &[u8],
    rows: &mut [u32],
    lent: usize,
    mark: u8,
    at: usize,
    row: usize,
    ancestry: Ancestry,
) -> Result<End, Refused>
    requires { Here message.now lent at row × (row < at + width mark) }
    ensures meets { Meets result (unmarked_at message.now lent mark at row) row 1 (ancestry_of ancestry) rows.old rows.new }
    ensures bounds { Within result at (length message.now) lent }
{
    let end = message.len();
    if end <= at {
        return Err(Refused(Refusal::EndsTooEarly, end));
    }
    scalar(message, rows, lent, mark, at, at, row, ancestry)
}

// `S` or `H`: an integer record, and so many bytes.
pub fn text(
    message: &[u8],
    rows: &mut [u32],
    lent: usize,
    kind: Kind,
    mark: u8,
    at: usize,
    row: usize,
    ancestry: Ancestry,
) -> Result<End, Refused>
    requires { Here message.now lent at row × (at < length message.now) }
    ensures meets { Meets result (text_at message.now lent (kind_of kind) mark at row) row (members (alone (uncounted (kind_of kind) mark at 0 0))) (ancestry_of ancestry) rows.old rows.new }
    ensures bounds { Within result (at + 1) (length message.now) lent }
{
    if lent <= row {
        return Err(Refused(Refusal::NoRowLeft, at));
    }
    let length = integer(message, at + 1)?;
    let n = length.number as usize;
    let start = length.next;
    let next = payload_end(message, mark, start, n)?;
    put_alone(rows, row, kind, mark, at, start, n, ancestry);
    Ok(End {
        at: next,
        row: row + 1,
    })
}

// A key: `S` without its mark.
pub fn key(
    message: &[u8],
    rows: &mut [u32],
    lent: usize,
    at: usize,
    row: usize,
    ancestry: Ancestry,
) -> Result<End, Refused>
    requires { Here message.now lent at row }
    ensures meets { Meets result (key_at message.now lent at row) row 0 (ancestry_of ancestry) rows.old rows.new }
    ensures bounds { Within result (at + 1) (length message.now) lent }
{
    let end = message.len();
    if end <= at {
        return Err(Refused(Refusal::EndsTooEarly, end));
    }
    let mark = Mark(message[at]);
    if !mark.is_integer() {
        return Err(Refused(Refusal::NotAllowed, at));
    }
    if lent <= row {
        return Err(Refused(Refusal::NoRowLeft, at));
    }
    let length = number(message, LIMIT, mark, at, at + 1)?;
    let n = length.number as usize;
    let start = length.next;
    let next = payload_end(message, Mark::TEXT, start, n)?;
    put_alone(rows, row, Kind::Key, Mark::TEXT, at, start, n, ancestry);
    Ok(End {
        at: next,
        row: row + 1,
    })
}
