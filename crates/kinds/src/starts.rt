// What stands where a kind begins: a leaf, which is read; or a record or a fixed array, of which only the tests before its members
// are made.
ghost use Rattle.std.specs.Prelude.{◌≡◌, List, ℕ, ◌≤◌, ◌<◌, length, get_or};
ghost use Rattle.format.specs.Marks.{Opening, opening_of};
ghost use Rattle.format.specs.Sequences.{Reader};
ghost use Rattle.format.specs.Schemas.{kind_by, nested};
ghost use Rattle.format.specs.Rows.{Ancestry as AncestryIn};
ghost use Rattle.rows.specs.Row.{ancestry_of};
ghost use Rattle.tokens.specs.Answers.{Here};
ghost use Rattle.kinds.specs.Answers.{over, kind_at, member_at, class_read, StartMeets, StartWithin};

use crate::Kinds;
use crate::leaves::{plain_leaf, text_leaf};
use format::marks::Mark;
use format::refusals::{Refusal, Refused};
use rows::Ancestry;
use tokens::scalars::key;

// What a mark begins: a leaf, or a record or a fixed array.
#[derive(Clone, Copy)]
pub enum Class {
    Plain,
    Text,
    Group(bool),
}

// A kind that is read; or the place and the row of a record or a fixed array whose members remain to be read.
#[derive(Clone, Copy)]
pub enum Start {
    Whole(Kinds),
    Opens { brace: bool, at: usize, row: usize },
}

// What a mark begins, or why it begins nothing.
fn class_of(mark: u8) -> Result<Class, Refusal>
    ensures { (m : List ℕ) (rows_lent : ℕ) (inner : Opening → Reader) (at row : ℕ) → at < length m → get_or m at 0 ≡ mark → kind_by m rows_lent inner at row ≡ class_read result m rows_lent inner mark at row }
{
    if Mark(mark).is_plain_leaf() {
        return Ok(Class::Plain);
    }
    if mark == Mark::TEXT {
        return Ok(Class::Text);
    }
    if mark == Mark::HIGH_PRECISION {
        return Err(Refusal::NotBuilt);
    }
    if mark == Mark::ARRAY {
        return Ok(Class::Group(false));
    }
    if mark == Mark::OBJECT {
        return Ok(Class::Group(true));
    }
    Err(Refusal::NotAllowed)
}

// A record or a fixed array: depth and row, and for a fixed array the byte after its mark, which mustn't be `$`.
fn group_start(
    message: &[u8],
    lent: usize,
    brace: bool,
    levels: usize,
    at: usize,
    row: usize,
) -> Result<Start, Refused>
    requires { Here message.now lent at row × (at < length message.now) }
    ensures meets { (offset : ℕ) (ancestry : AncestryIn) (words : List ℕ) → offset ≤ over → StartMeets result message.now lent levels (nested message.now lent levels (opening_of brace) at row) row offset ancestry words words }
    ensures bounds { (offset : ℕ) → StartWithin result at (length message.now) lent levels offset }
{
    if levels == 0 {
        return Err(Refused(Refusal::TooDeep, at));
    }
    if lent <= row {
        return Err(Refused(Refusal::NoRowLeft, at));
    }
    let opens = Start::Opens { brace, at, row };
    if brace {
        return Ok(opens);
    }
    let end = message.len();
    let next = at + 1;
    if end <= next {
        return Err(Refused(Refusal::EndsTooEarly, end));
    }
    if message[next] == Mark::TYPE {
        return Err(Refused(Refusal::NotBuilt, at));
    }
    Ok(opens)
}

// A kind, with so many levels of schema nesting left.
fn kind_start(
    message: &[u8],
    rows: &mut [u32],
    lent: usize,
    levels: usize,
    at: usize,
    row: usize,
    offset: usize,
    ancestry: Ancestry,
) -> Result<Start, Refused>
    requires { Here message.now lent at row × (offset ≤ over) }
    ensures meets { StartMeets result message.now lent levels (kind_at message.now lent levels at row) row offset (ancestry_of ancestry) rows.old rows.new }
    ensures bounds { StartWithin result at (length message.now) lent levels offset }
{
    let end = message.len();
    if end <= at {
        return Err(Refused(Refusal::EndsTooEarly, end));
    }
    let mark = message[at];
    match class_of(mark) {
        Ok(Class::Plain) => {
            let leaf = plain_leaf(message, rows, lent, mark, at, row, offset, ancestry)?;
            Ok(Start::Whole(leaf))
        }
        Ok(Class::Text) => {
            let text = text_leaf(message, rows, lent, at, row, offset, ancestry)?;
            Ok(Start::Whole(text))
        }
        Ok(Class::Group(brace)) => group_start(message, lent, brace, levels, at, row),
        Err(refusal) => Err(Refused(refusal, at)),
    }
}

// A member of a record or a fixed array: a kind, in a record after its key.
pub fn member_start(
    message: &[u8],
    rows: &mut [u32],
    lent: usize,
    brace: bool,
    levels: usize,
    at: usize,
    row: usize,
    offset: usize,
    ancestry: Ancestry,
) -> Result<Start, Refused>
    requires { Here message.now lent at row × (offset ≤ over) }
    ensures meets { StartMeets result message.now lent levels (member_at message.now lent levels (opening_of brace) at row) row offset (ancestry_of ancestry) rows.old rows.new }
    ensures bounds { StartWithin result at (length message.now) lent levels offset }
{
    if !brace {
        return kind_start(message, rows, lent, levels, at, row, offset, ancestry);
    }
    let name = key(message, rows, lent, at, row, ancestry)?;
    kind_start(
        message, rows, lent, levels, name.at, name.row, offset, ancestry,
    )
}
