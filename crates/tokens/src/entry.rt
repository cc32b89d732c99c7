// A token's row.
ghost use Rattle.std.specs.Prelude.{◌≡◌, ◌+◌, ◌≤◌};
ghost use Rattle.format.specs.Limits.{limit};
ghost use Rattle.format.specs.Tokens.{uncounted};
ghost use Rattle.format.specs.Answers.{kind_of};
ghost use Rattle.format.specs.Rows.{row_of};
ghost use Rattle.rows.specs.Row.{ancestry_of, store as store_in};
ghost use Rattle.tokens.specs.Answers.{Narrow, token_of};

use format::answers::Kind;
use rows::{Ancestry, Row, store};

// A token: its row's words but the link, the parent and the depth.
#[derive(Clone, Copy)]
pub struct Entry {
    pub kind: Kind,
    pub mark: u8,
    pub first: usize,
    pub payload: usize,
    pub extent: usize,
    pub count: usize,
    pub order: u32,
}

// Stores a token's row, with its link and its ancestry.
pub fn put(rows: &mut [u32], row: usize, e: Entry, link: usize, ancestry: Ancestry)
    requires { Narrow e link }
    ensures { rows.new ≡ store_in rows.old row (row_of (token_of e) link (ancestry_of ancestry)) }
{
    store(
        rows,
        row,
        Row {
            kind: e.kind.number(),
            mark: e.mark as u32,
            first: e.first as u32,
            payload: e.payload as u32,
            extent: e.extent as u32,
            count: e.count as u32,
            link: link as u32,
            order: e.order,
            parent: ancestry.parent,
            depth: ancestry.depth,
        },
    );
}

// Stores the row of a token with nothing below it, whose payload of n bytes starts at `start`.
pub fn put_alone(
    rows: &mut [u32],
    row: usize,
    kind: Kind,
    mark: u8,
    at: usize,
    start: usize,
    n: usize,
    ancestry: Ancestry,
)
    requires { (row ≤ at) × (at ≤ limit) × (start ≤ limit) × (n ≤ limit) }
    ensures { rows.new ≡ store_in rows.old row (row_of (uncounted (kind_of kind) mark at start n) (row + 1) (ancestry_of ancestry)) }
{
    put(
        rows,
        row,
        Entry {
            kind,
            mark,
            first: at,
            payload: start,
            extent: n,
            count: 0,
            order: 0,
        },
        row + 1,
        ancestry,
    );
}
