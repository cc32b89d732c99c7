// Values and members as far as they hold no others: what opens a container is left to the caller.
ghost use Rattle.std.specs.Prelude.{◌≡◌, length};
ghost use Rattle.format.specs.Marks.{opening_of};
ghost use Rattle.format.specs.Answers.{grammar_of};
ghost use Rattle.format.specs.Read.{value_by};
ghost use Rattle.format.specs.Containers.{items};
ghost use Rattle.rows.specs.Row.{ancestry_of};
ghost use Rattle.tokens.specs.Answers.{Here};
ghost use Rattle.items.specs.Items.{class_of, class, ItemMeets, ItemWithin};

use extensions::extension;
use format::answers::{Edition, Kind};
use format::marks::Mark;
use format::refusals::{Refusal, Refused};
use rows::Ancestry;
use scan::noops::skip;
use tokens::End;
use tokens::scalars::{key, scalar, text};

// What a mark begins.
#[derive(Clone, Copy)]
pub enum Class {
    Scalar,
    Text,
    HighPrecision,
    Bracket,
    Brace,
    Extension,
    Other,
}

// A value that is read whole; or a container that opens with a bracket or a brace, where, and its row.
#[derive(Clone, Copy)]
pub enum Item {
    Whole(End),
    Opens { brace: bool, at: usize, row: usize },
}

// What a mark begins, by the edition.
fn class_of(edition: Edition, mark: u8) -> Class
    ensures { class_of result ≡ class (grammar_of edition) mark }
{
    if Mark(mark).is_scalar() {
        return Class::Scalar;
    }
    match mark {
        Mark::TEXT => Class::Text,
        Mark::HIGH_PRECISION => Class::HighPrecision,
        Mark::ARRAY => Class::Bracket,
        Mark::OBJECT => Class::Brace,
        Mark::EXTENSION => match edition {
            Edition::Old => Class::Other,
            Edition::New => Class::Extension,
        },
        _ => Class::Other,
    }
}

// The value at `at`, or the container that it opens.
pub fn value_start(
    edition: Edition,
    message: &[u8],
    rows: &mut [u32],
    lent: usize,
    at: usize,
    row: usize,
    ancestry: Ancestry,
) -> Result<Item, Refused>
    requires { Here message.now lent at row }
    ensures meets { ItemMeets result (λ nested. value_by message.now lent (grammar_of edition) nested at row) row (ancestry_of ancestry) rows.old rows.new }
    ensures bounds { ItemWithin result at (length message.now) lent }
{
    let end = message.len();
    if end <= at {
        return Err(Refused(Refusal::EndsTooEarly, end));
    }
    let mark = message[at];
    match class_of(edition, mark) {
        Class::Scalar => {
            scalar(message, rows, lent, mark, at + 1, at, row, ancestry).map(Item::Whole)
        }
        Class::Text => {
            text(
                message,
                rows,
                lent,
                Kind::Text,
                Mark::TEXT,
                at,
                row,
                ancestry,
            )
            .map(Item::Whole)
        }
        Class::HighPrecision => {
            text(
                message,
                rows,
                lent,
                Kind::HighPrecision,
                Mark::HIGH_PRECISION,
                at,
                row,
                ancestry,
            )
            .map(Item::Whole)
        }
        Class::Bracket => Ok(Item::Opens {
            brace: false,
            at,
            row,
        }),
        Class::Brace => Ok(Item::Opens {
            brace: true,
            at,
            row,
        }),
        Class::Extension => extension(message, rows, lent, at, row, ancestry).map(Item::Whole),
        Class::Other => Err(Refused(Refusal::NotAllowed, at)),
    }
}

// A value or, in an object, a key and a value; or the container that the value opens.
pub fn member_start(
    edition: Edition,
    message: &[u8],
    rows: &mut [u32],
    lent: usize,
    brace: bool,
    at: usize,
    row: usize,
    ancestry: Ancestry,
) -> Result<Item, Refused>
    requires { Here message.now lent at row }
    ensures meets { ItemMeets result (λ nested. items message.now lent (opening_of brace) (value_by message.now lent (grammar_of edition) nested) at row) row (ancestry_of ancestry) rows.old rows.new }
    ensures bounds { ItemWithin result at (length message.now) lent }
{
    if !brace {
        return value_start(edition, message, rows, lent, at, row, ancestry);
    }
    let end = key(message, rows, lent, at, row, ancestry)?;
    let here = skip(message, end.at);
    value_start(edition, message, rows, lent, here, end.row, ancestry)
}
