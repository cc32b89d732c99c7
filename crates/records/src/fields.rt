// The top-level fields of a table's schema, and the leaf that is looked for in one of them.
ghost use Rattle.std.specs.Prelude.{List, ℕ};
ghost use Rattle.records.specs.Fields.{FieldsRead, FieldsWithin};

use contents::walk::after_key;
use format::limits::SCHEMA_LEVELS;
use format::marks::Mark;
use leaf_search::kinds::kind;
use leaf_search::leaves::{Seen, newer};
use scan::bytes::stands;

// The levels that are left for a field's kind.
const KIND_LEVELS: usize = SCHEMA_LEVELS - 1;

// What a walk over a whole schema gives: the byte after it, a record's width, the leaf that is looked for, and, where it was found,
// its field's offset and width.
#[derive(Clone, Copy)]
pub struct Fields {
    pub next: usize,
    pub wide: usize,
    pub seen: Seen,
    pub field: usize,
    pub span: usize,
}

// What is given where no schema can be read.
fn unread(leaf: usize) -> Fields
    ensures { (m : List ℕ) → FieldsWithin m result }
{
    Fields {
        next: 0,
        wide: 0,
        seen: Seen::Left(leaf),
        field: 0,
        span: 0,
    }
}

// The fields of the schema that begins at `schema`, with so many leaves to be passed before the one that is looked for.
pub fn fields_at(message: &[u8], schema: usize, leaf: usize) -> Fields
    ensures is { FieldsRead message.now schema leaf result }
    ensures bounds { FieldsWithin message.now result }
{
    let off = unread(leaf);
    let mut seen = Seen::Left(leaf);
    let mut wide = 0;
    let mut field = 0;
    let mut span = 0;
    let end = message.len();
    if end <= schema {
        return off;
    }
    let mut i = schema + 1;
    // No `for`: where the next member begins is known only once this one is walked.
    while i < end {
        let from = after_key(message, true, i);
        let walk = kind(message, KIND_LEVELS, from, wide, seen);
        let after = walk.next;
        let beyond = walk.offset;
        field = newer(seen, wide, field);
        span = newer(seen, beyond - wide, span);
        seen = walk.seen;
        wide = beyond;
        if stands(message, after, Mark::OBJECT_END) {
            let next = after + 1;
            return Fields {
                next,
                wide,
                seen,
                field,
                span,
            };
        }
        if after <= i {
            return off;
        }
        i = after;
    }
    off
}
