// The records and fixed arrays of a schema, which hold each other: members one after another are a loop, nesting is a call.
ghost use Rattle.std.specs.Prelude.{◌≡◌, ◌+◌, ◌-◌, ◌≤◌, ◌<◌, length};
ghost use Rattle.format.specs.Limits.{limit};
ghost use Rattle.format.specs.Marks.{bracket, brace as brace_opening, opens, opening_of};
ghost use Rattle.format.specs.Answers.{kind_of};
ghost use Rattle.format.specs.Rows.{row_of};
ghost use Rattle.format.specs.Schemas.{table_schema};
ghost use Rattle.laws.specs.Groups.{group_kind};
ghost use Rattle.rows.specs.Row.{ancestry_of, store as store_in};
ghost use Rattle.tokens.specs.Answers.{Here};
ghost use Rattle.kinds.specs.Answers.{over, group_at, group_from, Meets, Within};

use format::answers::Kind;
use format::limits::SCHEMA_LEVELS;
use format::marks::{closing_mark, opening_mark};
use format::refusals::{Refusal, Refused};
use kinds::Kinds;
use kinds::starts::{Start, member_start};
use rows::{Ancestry, held_by};
use scan::bytes::stands;
use tokens::entry::{Entry, put};

// The kind of what opens with a brace, or with a bracket.
fn kind_opened(brace: bool) -> Kind
    ensures { kind_of result ≡ group_kind (opening_of brace) }
{
    if brace {
        Kind::SchemaRecord
    } else {
        Kind::FixedArray
    }
}

// Stores the row of a record or a fixed array, once its members are read: it is as wide as they are together.
fn put_group(
    rows: &mut [u32],
    row: usize,
    brace: bool,
    at: usize,
    offset: usize,
    members: Kinds,
    count: usize,
    ancestry: Ancestry,
)
    requires { (at ≤ limit) × (offset ≤ members.offset) × (members.offset ≤ over) × (count ≤ limit) × (members.row ≤ limit) }
    ensures { rows.new ≡ store_in rows.old row (row_of (group_at (group_kind (opening_of brace)) (opens (opening_of brace)) at offset (members.offset - offset) count) members.row (ancestry_of ancestry)) }
{
    put(
        rows,
        row,
        Entry {
            kind: kind_opened(brace),
            mark: opening_mark(brace),
            first: at,
            payload: offset,
            extent: members.offset - offset,
            count,
            order: 0,
        },
        members.row,
        ancestry,
    );
}

// The kinds of a record or of a fixed array, from its opening mark to its closing one, with so many levels of schema nesting left in it.
#[cycle(array_kinds_group_kinds_opened_kinds_record_kinds)]
fn group_kinds(
    message: &[u8],
    rows: &mut [u32],
    lent: usize,
    brace: bool,
    levels: usize,
    at: usize,
    row: usize,
    offset: usize,
    ancestry: Ancestry,
) -> Result<Kinds, Refused>
    requires { Here message.now lent at row × (at < length message.now) × (row < lent) × (offset ≤ over) × (ancestry.depth ≤ at) }
    ensures meets { Meets result (group_from message.now lent levels (opening_of brace) at row) row offset (ancestry_of ancestry) rows.old rows.new }
    ensures bounds { Within result (at + 1) (length message.now) lent offset }
{
    let children = held_by(row, ancestry);
    let closing = closing_mark(brace);
    let mut read = Kinds {
        at: at + 1,
        row: row + 1,
        offset,
    };
    let mut count = 0;
    // No `for`: how many members there are is known only at the closing mark.
    loop {
        let end = read.offset;
        let start = member_start(
            message, rows, lent, brace, levels, read.at, read.row, end, children,
        )?;
        read = match start {
            Start::Whole(kind) => kind,
            Start::Opens {
                brace: inner,
                at: from,
                row: first,
            } => opened_kinds(
                message,
                rows,
                lent,
                inner,
                levels - 1,
                from,
                first,
                end,
                children,
            )?,
        };
        count += 1;
        if stands(message, read.at, closing) {
            put_group(rows, row, brace, at, offset, read, count, ancestry);
            return Ok(Kinds {
                at: read.at + 1,
                ..read
            });
        }
    }
}

// The kinds of a record, from its `{` to its `}`.
#[cycle(array_kinds_group_kinds_opened_kinds_record_kinds)]
pub fn record_kinds(
    message: &[u8],
    rows: &mut [u32],
    lent: usize,
    levels: usize,
    at: usize,
    row: usize,
    offset: usize,
    ancestry: Ancestry,
) -> Result<Kinds, Refused>
    requires { Here message.now lent at row × (at < length message.now) × (row < lent) × (offset ≤ over) × (ancestry.depth ≤ at) }
    ensures meets { Meets result (group_from message.now lent levels brace_opening at row) row offset (ancestry_of ancestry) rows.old rows.new }
    ensures bounds { Within result (at + 1) (length message.now) lent offset }
{
    group_kinds(message, rows, lent, true, levels, at, row, offset, ancestry)
}

// The kinds of a fixed array, from its `[` to its `]`.
#[cycle(array_kinds_group_kinds_opened_kinds_record_kinds)]
pub fn array_kinds(
    message: &[u8],
    rows: &mut [u32],
    lent: usize,
    levels: usize,
    at: usize,
    row: usize,
    offset: usize,
    ancestry: Ancestry,
) -> Result<Kinds, Refused>
    requires { Here message.now lent at row × (at < length message.now) × (row < lent) × (offset ≤ over) × (ancestry.depth ≤ at) }
    ensures meets { Meets result (group_from message.now lent levels bracket at row) row offset (ancestry_of ancestry) rows.old rows.new }
    ensures bounds { Within result (at + 1) (length message.now) lent offset }
{
    group_kinds(
        message, rows, lent, false, levels, at, row, offset, ancestry,
    )
}

// The kinds of what a member opens.
#[cycle(array_kinds_group_kinds_opened_kinds_record_kinds)]
fn opened_kinds(
    message: &[u8],
    rows: &mut [u32],
    lent: usize,
    brace: bool,
    levels: usize,
    at: usize,
    row: usize,
    offset: usize,
    ancestry: Ancestry,
) -> Result<Kinds, Refused>
    requires { Here message.now lent at row × (at < length message.now) × (row < lent) × (offset ≤ over) × (ancestry.depth ≤ at) }
    ensures meets { Meets result (group_from message.now lent levels (opening_of brace) at row) row offset (ancestry_of ancestry) rows.old rows.new }
    ensures bounds { Within result (at + 1) (length message.now) lent offset }
{
    if brace {
        record_kinds(message, rows, lent, levels, at, row, offset, ancestry)
    } else {
        array_kinds(message, rows, lent, levels, at, row, offset, ancestry)
    }
}

// A table's schema, whose `{` stands at `at`; the offset after it is the record's width.
pub fn table_schema(
    message: &[u8],
    rows: &mut [u32],
    lent: usize,
    at: usize,
    row: usize,
    ancestry: Ancestry,
) -> Result<Kinds, Refused>
    requires { Here message.now lent at row × (at < length message.now) × (ancestry.depth ≤ at) }
    ensures meets { Meets result (table_schema message.now lent at row) row 0 (ancestry_of ancestry) rows.old rows.new }
    ensures bounds { Within result (at + 1) (length message.now) lent 0 }
{
    if lent <= row {
        return Err(Refused(Refusal::NoRowLeft, at));
    }
    record_kinds(message, rows, lent, SCHEMA_LEVELS - 1, at, row, 0, ancestry)
}
