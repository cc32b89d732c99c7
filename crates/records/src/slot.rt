// The slot of a leaf and a record of a table.
ghost use Rattle.std.specs.Prelude.{◌≡◌, ℕ, ◌^◌, ◌≤◌, ◌<◌, length};
ghost use Rattle.format.specs.Limits.{limit};
ghost use Rattle.format.specs.Outcome.{done};
ghost use Rattle.format.specs.Marks.{opening_of};
ghost use Rattle.format.specs.Tokens.{Token, Forest, node, none};
ghost use Rattle.format.specs.Containers.{table};
ghost use Rattle.format.specs.Answers.{located, first_and_width};
ghost use Rattle.records.specs.Slots.{table_of, slot_of, leaf_place, InTable, TableHere};

use crate::counts::count_at;
use crate::fields::fields_at;
use format::answers::Span;
use format::limits::LIMIT;
use format::refusals::Refusal;
use leaf_search::leaves::Seen;

// The last place of a message.
const MOST: usize = LIMIT as usize;

// Where the leaf of a record stands, counted from the payload's first byte: by rows r R + o; by columns N f + r w + (o − f).
fn place(
    brace: bool,
    many: usize,
    number: usize,
    wide: usize,
    offset: usize,
    field: usize,
    span: usize,
) -> usize
    requires { InTable many number wide offset field span }
    ensures is { field ≤ offset → result ≡ leaf_place (opening_of brace) many number wide offset field span }
    ensures bounds { result < 2 ^ 40 }
{
    if brace {
        let column = many * field;
        let values = number * span;
        return column + values + offset - field;
    }
    let before = number * wide;
    before + offset
}

// The slot of a leaf, in schema order, and a record, in storage order, both from 0, of the table whose first byte is at `at`.
pub fn slot_in(
    message: &[u8],
    brace: bool,
    at: usize,
    leaf: usize,
    number: usize,
) -> Result<Span, Refusal>
    requires { TableHere message.now (opening_of brace) at }
    ensures { (lent row next : ℕ) (token : Token) (under : Forest) → length message.now ≤ limit
        → table message.now lent (opening_of brace) at row ≡ done (node token under none, next)
        → located result ≡ first_and_width (slot_of (table_of row token under) leaf number) }
{
    let end = message.len();
    if MOST < end {
        return Err(Refusal::NotThere);
    }
    if end <= at {
        return Err(Refusal::NotThere);
    }
    let walk = fields_at(message, at + 2, leaf);
    let seen = walk.seen;
    let total = count_at(message, walk.next + 1);
    match seen {
        Seen::Left(_) => Err(Refusal::NotThere),
        Seen::Found(offset, wide) => {
            let many = total.many;
            if many <= number {
                return Err(Refusal::NotThere);
            }
            let before = place(
                brace, many, number, walk.wide, offset, walk.field, walk.span,
            );
            let first = total.start + before;
            Ok(Span { first, width: wide })
        }
    }
}
