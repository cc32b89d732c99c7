// A dimension: an integer record, or a bare integer whose mark was given before.
ghost use Rattle.std.specs.Prelude.{◌+◌, ◌≤◌, ◌<◌, length};
ghost use Rattle.format.specs.Marks.{width as width_of};
ghost use Rattle.format.specs.Dimensions.{dimension as dimension_at, marked as marked_at, bare as bare_at};
ghost use Rattle.rows.specs.Row.{ancestry_of};
ghost use Rattle.tokens.specs.Answers.{Here};
ghost use Rattle.dimensions.specs.Answers.{Meets, Within, item_of, Wide};

use crate::Dims;
use format::answers::Kind;
use format::limits::LIMIT;
use format::marks::Mark;
use format::refusals::{Refusal, Refused};
use rows::Ancestry;
use scan::integers::number;
use tokens::entry::{Entry, put};

// How each of several dimensions stands: as an integer record, or bare under a mark.
#[derive(Clone, Copy)]
pub enum Form {
    Marked,
    Bare(u8),
}

// A dimension under a mark, whose number starts at `start`.
fn dimension(
    message: &[u8],
    rows: &mut [u32],
    lent: usize,
    mark: u8,
    start: usize,
    at: usize,
    row: usize,
    ancestry: Ancestry,
) -> Result<Dims, Refused>
    requires { Here message.now lent at row × (at ≤ start) × (row < start + width_of mark) }
    ensures meets { Meets result (dimension_at message.now lent mark start at row) row (ancestry_of ancestry) rows.old rows.new }
    ensures bounds { Within result start (length message.now) lent }
{
    if lent <= row {
        return Err(Refused(Refusal::NoRowLeft, at));
    }
    let width = Mark(mark).width();
    let size = number(message, LIMIT, Mark(mark), at, start)?;
    let n = size.number as usize;
    put(
        rows,
        row,
        Entry {
            kind: Kind::Dimension,
            mark,
            first: at,
            payload: start,
            extent: width,
            count: n,
            order: 0,
        },
        row + 1,
        ancestry,
    );
    Ok(Dims {
        at: size.next,
        row: row + 1,
        many: n,
    })
}

// An integer record.
pub fn marked(
    message: &[u8],
    rows: &mut [u32],
    lent: usize,
    at: usize,
    row: usize,
    ancestry: Ancestry,
) -> Result<Dims, Refused>
    requires { Here message.now lent at row }
    ensures meets { Meets result (marked_at message.now lent at row) row (ancestry_of ancestry) rows.old rows.new }
    ensures bounds { Within result (at + 1) (length message.now) lent }
{
    let end = message.len();
    if end <= at {
        return Err(Refused(Refusal::EndsTooEarly, end));
    }
    let mark = message[at];
    if !Mark(mark).is_integer() {
        return Err(Refused(Refusal::NotAllowed, at));
    }
    dimension(message, rows, lent, mark, at + 1, at, row, ancestry)
}

// A bare integer: its place is its first byte.
fn bare(
    message: &[u8],
    rows: &mut [u32],
    lent: usize,
    mark: u8,
    at: usize,
    row: usize,
    ancestry: Ancestry,
) -> Result<Dims, Refused>
    requires { Here message.now lent at row × (0 < width_of mark) }
    ensures meets { Meets result (bare_at message.now lent mark at row) row (ancestry_of ancestry) rows.old rows.new }
    ensures bounds { Within result at (length message.now) lent }
{
    let end = message.len();
    if end <= at {
        return Err(Refused(Refusal::EndsTooEarly, end));
    }
    dimension(message, rows, lent, mark, at, at, row, ancestry)
}

// One of several.
pub fn item(
    message: &[u8],
    rows: &mut [u32],
    lent: usize,
    form: Form,
    at: usize,
    row: usize,
    ancestry: Ancestry,
) -> Result<Dims, Refused>
    requires { Here message.now lent at row × Wide form }
    ensures meets { Meets result (item_of message.now lent form at row) row (ancestry_of ancestry) rows.old rows.new }
    ensures bounds { Within result at (length message.now) lent }
{
    match form {
        Form::Marked => marked(message, rows, lent, at, row, ancestry),
        Form::Bare(mark) => bare(message, rows, lent, mark, at, row, ancestry),
    }
}
