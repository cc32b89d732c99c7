// The leaf that is looked for, among the leaves of a schema.
ghost use Rattle.std.specs.Prelude.{◌≡◌, ℕ, ◌+◌, ◌≤◌, get_or};
ghost use Rattle.format.specs.Limits.{record_limit};
ghost use Rattle.format.specs.Marks.{'[', left_brace};
ghost use Rattle.format.specs.Schemas.{kind_by, nested};
ghost use Rattle.leaf_search.specs.Search.{passed, latest};
ghost use Rattle.leaf_search.specs.Walks.{Near, Begins, Ends, PassedLeaf, Walks};

use format::limits::RECORD_LIMIT;
use format::marks::Mark;
use scan::integers::integer;

// So many leaves are to be passed before it; or its offset in the record and its width.
#[derive(Clone, Copy)]
pub enum Seen {
    Left(usize),
    Found(usize, usize),
}

// How far a walk over a schema's bytes has come: the next byte, the offset of the next leaf, and the leaf that is looked for.
#[derive(Clone, Copy)]
pub struct Walk {
    pub next: usize,
    pub offset: usize,
    pub seen: Seen,
}

// Past a leaf at an offset, of so many bytes.
fn pass(seen: Seen, offset: usize, wide: usize) -> Seen
    requires { Near seen × (offset ≤ record_limit) }
    ensures is { result ≡ passed seen offset wide }
    ensures bounds { Near result }
{
    match seen {
        Seen::Found(o, w) => Seen::Found(o, w),
        Seen::Left(n) => {
            if n == 0 {
                return Seen::Found(offset, wide);
            }
            Seen::Left(n - 1)
        }
    }
}

// The latest number, until the leaf is found.
pub fn newer(seen: Seen, now: usize, before: usize) -> usize
    ensures { result ≡ latest seen now before }
{
    match seen {
        Seen::Left(_) => now,
        Seen::Found(_, _) => before,
    }
}

// A leaf of so many bytes, after which the schema goes on at `next`.
fn leaf_over(wide: usize, next: usize, offset: usize, seen: Seen) -> Walk
    requires { Begins offset seen }
    ensures is { offset + wide ≤ record_limit → PassedLeaf wide next offset seen result }
    ensures bounds { Ends offset result }
{
    if RECORD_LIMIT - offset < wide {
        return Walk { next, offset, seen };
    }
    let after = pass(seen, offset, wide);
    Walk {
        next: next,
        offset: offset + wide,
        seen: after,
    }
}

// A leaf of the schema.
pub fn leaf(message: &[u8], at: usize, offset: usize, seen: Seen) -> Walk
    requires { Begins offset seen }
    ensures is { ((levels : ℕ) → (get_or message.now at 0 ≡ '[' → ⊥) → (get_or message.now at 0 ≡ left_brace → ⊥) → Walks (λ lent. kind_by message.now lent (nested message.now lent levels)) at offset seen result) }
    ensures bounds { Ends offset result }
{
    let off = Walk {
        next: at,
        offset,
        seen,
    };
    if message.len() <= at {
        return off;
    }
    let mark = message[at];
    let kind = Mark(mark);
    if kind.is_plain_leaf() {
        let wide = kind.leaf_width();
        return leaf_over(wide, at + 1, offset, seen);
    }
    if mark != Mark::TEXT {
        return off;
    }
    let Ok(length) = integer(message, at + 1) else {
        return off;
    };
    leaf_over(length.number as usize, length.next, offset, seen)
}
