// The two layouts of a table's payload, by rows and by columns.
ghost use Rattle.std.specs.Prelude.{◌≡◌, ℕ, ◌≤◌};
ghost use Rattle.format.specs.Marks.{opening_of};
ghost use Rattle.format.specs.Tokens.{Forest, below_first};
ghost use Rattle.format.specs.Indexes.{below};
ghost use Rattle.format.specs.Storage.{records};
ghost use Rattle.columns.specs.Least.{nowhere, farthest, least, in_columns, in_fields};
ghost use Rattle.columns.specs.Walks.{Sound, Ends};
ghost use Rattle.contents.specs.Tables.{TableAt, FieldWalks};

use crate::walk::{after_key, group, kind};
use columns::{FARTHEST, Walk};
use format::limits::{LIMIT, RECORD_LIMIT, SCHEMA_LEVELS};
use format::marks::Mark;
use scan::bytes::stands;

// The levels that are left for a field's kind.
const KIND_LEVELS: usize = SCHEMA_LEVELS - 1;

// Over every place: nothing is wrong.
const NOWHERE: usize = LIMIT as usize + 1;

// One field by columns: its width, then its leaves.
fn field(message: &[u8], at: usize, count: usize, place: usize, best: usize) -> Walk
    requires { Sound 0 place best }
    ensures is { FieldWalks message.now at count place best result }
    ensures bounds { Ends best result }
{
    let off = Walk {
        next: at,
        place,
        best,
    };
    let first = kind(message, KIND_LEVELS, at, RECORD_LIMIT, 0, 0, best);
    let wide = first.place;
    if RECORD_LIMIT < wide {
        return off;
    }
    if NOWHERE <= count {
        return off;
    }
    let taken = count * wide;
    if FARTHEST - place < taken {
        return off;
    }
    let walk = kind(message, KIND_LEVELS, at, wide, count, place, best);
    let next = walk.next;
    let low = walk.best;
    Walk {
        next: next,
        place: place + taken,
        best: low,
    }
}

// The least place of a wrong value, by columns.
fn by_columns(message: &[u8], schema: usize, count: usize, start: usize) -> usize
    requires { start ≤ farthest }
    ensures is { (wide lent row next : ℕ) (s : Forest) → TableAt message.now schema wide count start lent row next s → result ≡ in_fields message.now count (below_first s) start }
    ensures bounds { result ≤ nowhere }
{
    let end = message.len();
    if end <= schema {
        return NOWHERE;
    }
    let mut i = schema + 1;
    let mut place = start;
    let mut low = NOWHERE;
    // No `for`: where the next member begins is known only once this one is walked.
    while i < end {
        let from = after_key(message, true, i);
        let walk = field(message, from, count, place, low);
        let next = walk.next;
        place = walk.place;
        low = walk.best;
        if stands(message, next, Mark::OBJECT_END) {
            return low;
        }
        if next <= i {
            return NOWHERE;
        }
        i = next;
    }
    NOWHERE
}

// The least place of a wrong value, by rows.
fn by_rows(message: &[u8], schema: usize, wide: usize, count: usize, start: usize) -> usize
    requires { Sound wide start nowhere }
    ensures is { (lent row next : ℕ) (s : Forest) → TableAt message.now schema wide count start lent row next s → result ≡ in_columns message.now wide count (below_first s) start }
    ensures bounds { result ≤ nowhere }
{
    let walk = group(
        message,
        SCHEMA_LEVELS,
        true,
        schema,
        wide,
        count,
        start,
        NOWHERE,
    );
    walk.best
}

// The least place of a wrong value.
pub fn lowest(
    message: &[u8],
    brace: bool,
    schema: usize,
    wide: usize,
    count: usize,
    start: usize,
) -> usize
    requires { Sound wide start nowhere }
    ensures is { (lent row next n : ℕ) (s : Forest) → TableAt message.now schema wide count start lent row next s → result ≡ least message.now start (records (opening_of brace) n (below_first s) (below count)) }
    ensures bounds { result ≤ nowhere }
{
    if brace {
        return by_columns(message, schema, count, start);
    }
    by_rows(message, schema, wide, count, start)
}
