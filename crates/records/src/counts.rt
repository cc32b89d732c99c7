// How many records a table has, and where its payload starts.
ghost use Rattle.std.specs.Prelude.{◌+◌, ◌≤◌};
ghost use Rattle.format.specs.Limits.{limit};
ghost use Rattle.records.specs.Counts.{CountRead};

use format::limits::LIMIT;
use rows::OUTERMOST;
use shapes::counts::shape;

// The last place of a message.
const MOST: usize = LIMIT as usize;

// The payload's first byte, and how many records.
#[derive(Clone, Copy)]
pub struct Count {
    pub start: usize,
    pub many: usize,
}

// The count that begins at `at`, read with no table, so that any ancestry will do. Where none can be read, nothing is
// promised but the bounds: an Option would only add a test that no accepted message needs.
pub fn count_at(message: &[u8], at: usize) -> Count
    ensures is { CountRead message.now at result }
    ensures bounds { (result.start ≤ limit) × (result.many ≤ limit + 1) }
{
    let off = Count { start: 0, many: 0 };
    let end = message.len();
    if MOST < end {
        return off;
    }
    if end < at {
        return off;
    }
    let mut none = [0u32; 0];
    let Ok(shaped) = shape(message, &mut none, end, false, at, 0, OUTERMOST) else {
        return off;
    };
    Count {
        start: shaped.at,
        many: shaped.many,
    }
}
