// The walk over a schema's bytes, up to the leaf that is looked for and on to the end.
ghost use Rattle.format.specs.Marks.{opening_of};
ghost use Rattle.format.specs.Schemas.{kind_by, nested};
ghost use Rattle.leaf_search.specs.Walks.{Begins, Ends, Walks};

use crate::leaves::{Seen, Walk, leaf};
use contents::walk::after_key;
use format::marks::{Mark, closing_mark};
use scan::bytes::{byte_at, stands};

// A kind: a leaf, a schema or a fixed array.
#[cycle(group_kind)]
pub fn kind(message: &[u8], levels: usize, at: usize, offset: usize, seen: Seen) -> Walk
    requires { Begins offset seen }
    ensures is { Walks (λ lent. kind_by message.now lent (nested message.now lent levels)) at offset seen result }
    ensures bounds { Ends offset result }
{
    let mark = byte_at(message, at);
    if mark == Mark::ARRAY {
        return group(message, levels, false, at, offset, seen);
    }
    if mark == Mark::OBJECT {
        return group(message, levels, true, at, offset, seen);
    }
    leaf(message, at, offset, seen)
}

// A schema or a fixed array, with so many levels of nesting left.
#[cycle(group_kind)]
fn group(message: &[u8], levels: usize, brace: bool, at: usize, offset: usize, seen: Seen) -> Walk
    requires { Begins offset seen }
    ensures is { Walks (λ lent. nested message.now lent levels (opening_of brace)) at offset seen result }
    ensures bounds { Ends offset result }
{
    let off = Walk {
        next: at,
        offset,
        seen,
    };
    if levels == 0 {
        return off;
    }
    if message.len() <= at {
        return off;
    }
    let closing = closing_mark(brace);
    let mut i = at + 1;
    let mut here = offset;
    let mut sought = seen;
    // No `for`: where the next member begins is known only once this one is walked.
    while i < message.len() {
        let from = after_key(message, brace, i);
        let walk = kind(message, levels - 1, from, here, sought);
        let next = walk.next;
        here = walk.offset;
        sought = walk.seen;
        if stands(message, next, closing) {
            let after = next + 1;
            return Walk {
                next: after,
                offset: here,
                seen: sought,
            };
        }
        if next <= i {
            return off;
        }
        i = next;
    }
    off
}
