// The walk over a schema's bytes: each leaf's column is looked at once.
ghost use Rattle.std.specs.Prelude.{◌≡◌, ℕ, ◌≤◌, length};
ghost use Rattle.format.specs.Outcome.{done};
ghost use Rattle.format.specs.Marks.{opening_of};
ghost use Rattle.format.specs.Tokens.{Forest};
ghost use Rattle.format.specs.Sequences.{Reader};
ghost use Rattle.format.specs.Schemas.{kind_by, nested};
ghost use Rattle.contents.specs.Items.{item_of, Keyed};
ghost use Rattle.columns.specs.Walks.{Sound, Ends, Walks};

use columns::{Walk, leaf};
use format::limits::LIMIT;
use format::marks::{Mark, closing_mark};
use scan::bytes::{byte_at, stands};
use scan::integers::number;

// Where a member's kind begins: after its key, in a schema.
pub fn after_key(message: &[u8], brace: bool, at: usize) -> usize
    ensures { (lent row next : ℕ) (kind : Reader) (f : Forest) → row ≤ lent → at ≤ length message.now → item_of message.now lent (opening_of brace) kind at row ≡ done (f, next) → Keyed lent kind f next result }
{
    if !brace {
        return at;
    }
    let end = message.len();
    if end <= at {
        return at;
    }
    let mark = Mark(message[at]);
    let Ok(length) = number(message, LIMIT, mark, at, at + 1) else {
        return at;
    };
    let size = length.number as usize;
    if end - length.next < size {
        return at;
    }
    length.next + size
}

// A kind: a leaf, a schema or a fixed array.
#[cycle(group_kind)]
pub fn kind(
    message: &[u8],
    levels: usize,
    at: usize,
    stride: usize,
    count: usize,
    place: usize,
    best: usize,
) -> Walk
    requires { Sound stride place best }
    ensures is { Walks message.now (λ lent. kind_by message.now lent (nested message.now lent levels)) at stride count place best result }
    ensures bounds { Ends best result }
{
    let mark = byte_at(message, at);
    if mark == Mark::ARRAY {
        return group(message, levels, false, at, stride, count, place, best);
    }
    if mark == Mark::OBJECT {
        return group(message, levels, true, at, stride, count, place, best);
    }
    leaf(message, at, stride, count, place, best)
}

// A schema or a fixed array, with so many levels of nesting left.
#[cycle(group_kind)]
pub fn group(
    message: &[u8],
    levels: usize,
    brace: bool,
    at: usize,
    stride: usize,
    count: usize,
    place: usize,
    best: usize,
) -> Walk
    requires { Sound stride place best }
    ensures is { Walks message.now (λ lent. nested message.now lent levels (opening_of brace)) at stride count place best result }
    ensures bounds { Ends best result }
{
    let next = at;
    let off = Walk { next, place, best };
    if levels == 0 {
        return off;
    }
    if message.len() <= at {
        return off;
    }
    let closing = closing_mark(brace);
    let mut i = at + 1;
    let mut here = place;
    let mut low = best;
    // No `for`: where the next member begins is known only once this one is walked.
    while i < message.len() {
        let from = after_key(message, brace, i);
        let walk = kind(message, levels - 1, from, stride, count, here, low);
        let next = walk.next;
        if stands(message, next, closing) {
            let mut whole = walk;
            whole.next = next + 1;
            return whole;
        }
        if next <= i {
            return off;
        }
        i = next;
        here = walk.place;
        low = walk.best;
    }
    off
}
