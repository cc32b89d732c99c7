// The content of a table's payload.
ghost use Rattle.std.specs.Prelude.{◌≡◌, ℕ};
ghost use Rattle.format.specs.Marks.{opening_of};
ghost use Rattle.format.specs.Tokens.{Forest, below_first};
ghost use Rattle.format.specs.Indexes.{below};
ghost use Rattle.format.specs.Storage.{records};
ghost use Rattle.format.specs.Content.{contents};
ghost use Rattle.contents.specs.Tables.{TableAt};
ghost use Rattle.contents.specs.Answers.{checked_of};

use crate::layouts::lowest;
use format::limits::{LIMIT, RECORD_LIMIT};

// The last place of a message.
const MOST: usize = LIMIT as usize;

// The first wrong slot of a table's payload; none where all are right. `schema` is the place of the schema's first byte, `wide` a record's width.
pub fn table_contents(
    message: &[u8],
    brace: bool,
    schema: usize,
    wide: usize,
    count: usize,
    start: usize,
) -> Option<usize>
    ensures { (lent row next n : ℕ) (s : Forest) → TableAt message.now schema wide count start lent row next s → checked_of result ≡ contents message.now start (records (opening_of brace) n (below_first s) (below count)) }
{
    if RECORD_LIMIT < wide {
        return None;
    }
    if MOST < start {
        return None;
    }
    let place = lowest(message, brace, schema, wide, count, start);
    if MOST < place {
        return None;
    }
    Some(place)
}
