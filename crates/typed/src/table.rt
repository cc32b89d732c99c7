// Tables: a schema, a count, and records by rows or by columns.
ghost use Rattle.std.specs.Prelude.{List, ℕ, ◌+◌, ◌≤◌, ◌<◌, length};
ghost use Rattle.format.specs.Marks.{opening_of};
ghost use Rattle.format.specs.Containers.{table as table_at};
ghost use Rattle.format.specs.Rows.{held_by};
ghost use Rattle.rows.specs.Row.{ancestry_of};
ghost use Rattle.tokens.specs.Answers.{Meets, Here, Within};
ghost use Rattle.shapes.specs.Answers.{order_number};
ghost use Rattle.typed.specs.Tables.{HeaderRead, HeaderWithin};

use crate::packed::store_row;
use contents::tables::table_contents;
use format::answers::Kind;
use format::limits::{LIMIT, RECORD_LIMIT};
use format::marks::{Mark, opening_mark};
use format::refusals::{Refusal, Refused};
use rows::{Ancestry, held_by};
use schemas::groups::table_schema;
use shapes::counts::{Shaped, shape};
use tokens::End;
use tokens::entry::Entry;

// The table at `at`, once its schema, of `wide` bytes, and its count are read.
fn table_payload(
    message: &[u8],
    rows: &mut [u32],
    brace: bool,
    wide: usize,
    count: Shaped,
    at: usize,
    row: usize,
    ancestry: Ancestry,
) -> Result<End, Refused>
    requires { HeaderWithin message.now wide count.at count.row count.many at row }
    ensures meets { (lent : ℕ) (before : List ℕ) → HeaderRead message.now lent at row (held_by row (ancestry_of ancestry)) before rows.old wide count.at count.row count.many (order_number count.order)
        → Meets result (table_at message.now lent (opening_of brace) at row) row 1 (ancestry_of ancestry) before rows.new }
    ensures bounds { (lent : ℕ) → count.row ≤ lent → Within result (at + 1) (length message.now) lent }
{
    let many = count.many;
    if (LIMIT as usize) < many {
        return Err(Refused(Refusal::OverLimit, at));
    }
    if RECORD_LIMIT < wide {
        return Err(Refused(Refusal::OverLimit, at));
    }
    let start = count.at;
    let end = message.len();
    let extent = many * wide;
    if end - start < extent {
        return Err(Refused(Refusal::EndsTooEarly, end));
    }
    let content = table_contents(message, brace, at + 2, wide, many, start);
    let mark = opening_mark(brace);
    let e = Entry {
        kind: Kind::Table,
        mark,
        first: at,
        payload: start,
        extent,
        count: many,
        order: count.order.number(),
    };
    store_row(rows, row, e, count.row, content, ancestry)
}

// The table at `at`.
pub fn table(
    message: &[u8],
    rows: &mut [u32],
    lent: usize,
    brace: bool,
    at: usize,
    row: usize,
    ancestry: Ancestry,
) -> Result<End, Refused>
    requires { Here message.now lent at row × (at + 2 < length message.now) × (row < lent) × (ancestry.depth ≤ at) }
    ensures meets { Meets result (table_at message.now lent (opening_of brace) at row) row 1 (ancestry_of ancestry) rows.old rows.new }
    ensures bounds { Within result (at + 1) (length message.now) lent }
{
    let below = row + 1;
    let children = held_by(row, ancestry);
    let schema = table_schema(message, rows, lent, at + 2, below, children)?;
    let from = schema.at;
    let end = message.len();
    if end <= from {
        return Err(Refused(Refusal::EndsTooEarly, end));
    }
    if message[from] != Mark::COUNT {
        return Err(Refused(Refusal::NotAllowed, from));
    }
    let count = shape(message, rows, lent, false, from + 1, schema.row, children)?;
    table_payload(
        message,
        rows,
        brace,
        schema.offset,
        count,
        at,
        row,
        ancestry,
    )
}
