// The values of one leaf of a table, record after record.
#![tactic(auto)]

ghost use Rattle.std.specs.Prelude.{◌≡◌, true, false, List, ℕ, ◌+◌, ◌≤◌, min, length, get_or};
ghost use Rattle.format.specs.Limits.{record_limit};
ghost use Rattle.format.specs.Marks.{'H', '[', left_brace};
ghost use Rattle.format.specs.Bytes.{bytes};
ghost use Rattle.format.specs.Content.{is_content};
ghost use Rattle.format.specs.Schemas.{leaf as leaf_of, kind_by, nested};
ghost use Rattle.columns.specs.Least.{nowhere, in_column, Fits};
ghost use Rattle.columns.specs.Walks.{Sound, Ends, Over, Walks};

use content::is_content;
use format::marks::Mark;
use scan::integers::integer;

// The farthest place of a value that a walk reaches: twice the longest message.
pub const FARTHEST: usize = 2_097_152;

// How far a walk over a schema's bytes has come: the next byte, the place of the next leaf's first value, and the least place of a
// wrong value so far.
#[derive(Clone, Copy)]
pub struct Walk {
    pub next: usize,
    pub place: usize,
    pub best: usize,
}

// Whether so many bytes from a place on are right under the mark; true where they aren't all there.
fn is_right(message: &[u8], mark: u8, wide: usize, place: usize) -> bool
    ensures { place + wide ≤ length message.now → result ≡ is_content mark (bytes message.now place wide) }
{
    let end = message.len();
    if end < place {
        return true;
    }
    if end - place < wide {
        return true;
    }
    let next = place + wide;
    is_content(mark, &message[place..next])
}

// The least place of a wrong value, if it is below `best`.
fn column(
    message: &[u8],
    mark: u8,
    wide: usize,
    stride: usize,
    count: usize,
    place: usize,
    best: usize,
) -> usize
    requires { (stride ≤ record_limit) × (best ≤ nowhere) }
    ensures is { Fits message.now stride count (place + wide) → result ≡ min best (in_column message.now mark wide stride count place) }
    ensures bounds { result ≤ best }
{
    let mut here = place;
    for passed in 0..count {
        if best <= here {
            return best;
        }
        if !is_right(message, mark, wide, here) {
            return here;
        }
        here += stride;
    }
    best
}

// Whether bytes under a leaf's mark can be wrong.
fn is_checked(mark: u8) -> bool
    ensures { result ≡ false → (mark ≡ 'H' → ⊥) → (bs : List ℕ) → is_content mark bs ≡ true }
{
    match mark {
        Mark::TEXT => true,
        Mark::CHAR => true,
        Mark::TRUE => true,
        _ => false,
    }
}

// A leaf's column: looked at where it has bytes that can be wrong.
fn leaf_column(
    message: &[u8],
    mark: u8,
    wide: usize,
    stride: usize,
    count: usize,
    place: usize,
    best: usize,
) -> usize
    requires { (stride ≤ record_limit) × (best ≤ nowhere) }
    ensures is { (mark ≡ 'H' → ⊥) → Fits message.now stride count (place + wide) → result ≡ min best (in_column message.now mark wide stride count place) }
    ensures bounds { result ≤ best }
{
    if wide == 0 {
        return best;
    }
    if !is_checked(mark) {
        return best;
    }
    column(message, mark, wide, stride, count, place, best)
}

// A leaf of so many bytes, after which the schema goes on at `next`.
fn leaf_over(
    message: &[u8],
    mark: u8,
    wide: usize,
    next: usize,
    stride: usize,
    count: usize,
    place: usize,
    best: usize,
) -> Walk
    requires { Sound stride place best }
    ensures is { (mark ≡ 'H' → ⊥) → Fits message.now stride count (place + wide) → (at : ℕ) → Over message.now stride count place best (leaf_of mark at wide) next result }
    ensures bounds { Ends best result }
{
    if FARTHEST - place < wide {
        return Walk { next, place, best };
    }
    let lowest = leaf_column(message, mark, wide, stride, count, place, best);
    Walk {
        next: next,
        place: place + wide,
        best: lowest,
    }
}

// A leaf of the schema.
pub fn leaf(
    message: &[u8],
    at: usize,
    stride: usize,
    count: usize,
    place: usize,
    best: usize,
) -> Walk
    requires { Sound stride place best }
    ensures is { ((levels : ℕ) → (get_or message.now at 0 ≡ '[' → ⊥) → (get_or message.now at 0 ≡ left_brace → ⊥) → Walks message.now (λ lent. kind_by message.now lent (nested message.now lent levels)) at stride count place best result) }
    ensures bounds { Ends best result }
{
    let off = Walk {
        next: at,
        place,
        best,
    };
    if message.len() <= at {
        return off;
    }
    let mark = message[at];
    let kind = Mark(mark);
    if kind.is_plain_leaf() {
        let wide = kind.leaf_width();
        return leaf_over(message, mark, wide, at + 1, stride, count, place, best);
    }
    if mark != Mark::TEXT {
        return off;
    }
    let Ok(length) = integer(message, at + 1) else {
        return off;
    };
    let wide = length.number as usize;
    leaf_over(
        message,
        Mark::TEXT,
        wide,
        length.next,
        stride,
        count,
        place,
        best,
    )
}
