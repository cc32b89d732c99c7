// Members one after another: each loop reads one sort of them, and stops where another begins.
ghost use Rattle.std.specs.Prelude.{◌≡◌, ℕ, ◌+◌, ◌≤◌, length, Option, IfSome};
ghost use Rattle.format.specs.Limits.{limit};
ghost use Rattle.format.specs.Marks.{bracket, brace as brace_opening, opening_of};
ghost use Rattle.format.specs.Tokens.{scalar, text};
ghost use Rattle.format.specs.Answers.{kind_of};
ghost use Rattle.format.specs.Rows.{row_of};
ghost use Rattle.rows.specs.Row.{ancestry_of, store as store_in};
ghost use Rattle.tokens.specs.Answers.{Here};
ghost use Rattle.ends.specs.Ends.{Sized, Sizes};
ghost use Rattle.runs.specs.Runs.{StandsAlone, RunMeets, value_start, value_token};

use ends::scalars::{alike_end, scalar_end};
use ends::sizes::{LONGEST, size_of, sizes};
use ends::texts::{key_end, text_end, value_end};
use format::answers::Kind;
use format::marks::Mark;
use rows::Ancestry;
use scan::bytes::byte_at;
use tokens::Members;
use tokens::entry::put_alone;

// Tokens that hold no others, one after another: each of this kind, with its payload so many bytes after its first. `end` says where one
// ends; none where it is left to the reader.
fn alone<F: Fn(usize) -> Option<usize>>(
    end: F,
    kind: Kind,
    ahead: usize,
    message: &[u8],
    rows: &mut [u32],
    lent: usize,
    most: usize,
    start: usize,
    first: usize,
    ancestry: Ancestry,
) -> Members
    requires here { Here message.now lent start first }
    requires ahead { ahead ≤ 3 }
    requires asked { (at : ℕ) → at ≤ length message.now → F.pre end at }
    requires stands { (at : ℕ) (next : Option ℕ) → at ≤ length message.now → F.post end at next → IfSome next (StandsAlone message.now (kind_of kind) ahead at) }
    ensures { RunMeets result message.now lent bracket most start first (ancestry_of ancestry) rows.old rows.new }
{
    let mut at = start;
    for count in 0..most {
        let row = first + count;
        if lent <= row {
            return Members { at, row, count };
        }
        let Some(next) = end(at) else {
            return Members { at, row, count };
        };
        let payload = at + ahead;
        put_alone(
            rows,
            row,
            kind,
            message[at],
            at,
            payload,
            next - payload,
            ancestry,
        );
        at = next;
    }
    Members {
        at,
        row: first + most,
        count: most,
    }
}

// Scalars of one mark, which goes with so many bytes.
fn alike(
    message: &[u8],
    rows: &mut [u32],
    lent: usize,
    most: usize,
    mark: u8,
    n: usize,
    start: usize,
    first: usize,
    ancestry: Ancestry,
) -> Members
    requires { Here message.now lent start first × Sized mark n }
    ensures { RunMeets result message.now lent bracket most start first (ancestry_of ancestry) rows.old rows.new }
{
    let end = |at: usize| -> Option<usize>
        requires { (at ≤ length message.now) × (length message.now ≤ limit) × Sized mark n }
        ensures { IfSome result (StandsAlone message.entry.now scalar 1 at) }
    { alike_end(message, mark, n, at) };
    alone(
        end,
        Kind::Scalar,
        1,
        message,
        rows,
        lent,
        most,
        start,
        first,
        ancestry,
    )
}

// Scalars.
fn scalars(
    message: &[u8],
    rows: &mut [u32],
    lent: usize,
    most: usize,
    start: usize,
    first: usize,
    ancestry: Ancestry,
) -> Members
    requires { Here message.now lent start first }
    ensures { RunMeets result message.now lent bracket most start first (ancestry_of ancestry) rows.old rows.new }
{
    if !Mark(byte_at(message, start)).is_scalar() {
        return Members {
            at: start,
            row: first,
            count: 0,
        };
    }
    let sizes = sizes();
    let end = |at: usize| -> Option<usize>
        requires { (at ≤ length message.now) × (length message.now ≤ limit) × Sizes sizes }
        ensures { IfSome result (StandsAlone message.entry.now scalar 1 at) }
    { scalar_end(message, &sizes, at) };
    alone(
        end,
        Kind::Scalar,
        1,
        message,
        rows,
        lent,
        most,
        start,
        first,
        ancestry,
    )
}

// Texts.
fn texts(
    message: &[u8],
    rows: &mut [u32],
    lent: usize,
    most: usize,
    start: usize,
    first: usize,
    ancestry: Ancestry,
) -> Members
    requires { Here message.now lent start first }
    ensures { RunMeets result message.now lent bracket most start first (ancestry_of ancestry) rows.old rows.new }
{
    let end = |at: usize| -> Option<usize>
        requires { (at ≤ length message.now) × (length message.now ≤ limit) }
        ensures { IfSome result (StandsAlone message.entry.now text 3 at) }
    { text_end(message, at) };
    alone(
        end,
        Kind::Text,
        3,
        message,
        rows,
        lent,
        most,
        start,
        first,
        ancestry,
    )
}

// The row of a text or a scalar that stands at `at`, under this mark, and ends before `next`.
fn put_value(rows: &mut [u32], row: usize, mark: u8, at: usize, next: usize, ancestry: Ancestry)
    requires { (row ≤ at) × (value_start mark at ≤ next) × (next ≤ limit) }
    ensures { rows.new ≡ store_in rows.old row (row_of (value_token mark at next) (row + 1) (ancestry_of ancestry)) }
{
    if mark == Mark::TEXT {
        let letters = at + 3;
        put_alone(
            rows,
            row,
            Kind::Text,
            Mark::TEXT,
            at,
            letters,
            next - letters,
            ancestry,
        );
    } else {
        let payload = at + 1;
        put_alone(
            rows,
            row,
            Kind::Scalar,
            mark,
            at,
            payload,
            next - payload,
            ancestry,
        );
    }
}

// Members of an object: keys, each with a scalar or a text.
fn pairs(
    message: &[u8],
    rows: &mut [u32],
    lent: usize,
    most: usize,
    start: usize,
    first: usize,
    ancestry: Ancestry,
) -> Members
    requires { Here message.now lent start first }
    ensures { RunMeets result message.now lent brace_opening most start first (ancestry_of ancestry) rows.old rows.new }
{
    let mut at = start;
    let mut row = first;
    for count in 0..most {
        let below = row + 1;
        if lent <= below {
            return Members { at, row, count };
        }
        let Some(value) = key_end(message, at) else {
            return Members { at, row, count };
        };
        let Some(next) = value_end(message, value) else {
            return Members { at, row, count };
        };
        let letters = at + 2;
        put_alone(
            rows,
            row,
            Kind::Key,
            Mark::TEXT,
            at,
            letters,
            value - letters,
            ancestry,
        );
        put_value(rows, below, message[value], value, next, ancestry);
        at = next;
        row = below + 1;
    }
    Members {
        at,
        row,
        count: most,
    }
}

// Members of an array.
fn values(
    message: &[u8],
    rows: &mut [u32],
    lent: usize,
    most: usize,
    start: usize,
    first: usize,
    ancestry: Ancestry,
) -> Members
    requires { Here message.now lent start first }
    ensures { RunMeets result message.now lent bracket most start first (ancestry_of ancestry) rows.old rows.new }
{
    let mark = byte_at(message, start);
    if mark == Mark::TEXT {
        return texts(message, rows, lent, most, start, first, ancestry);
    }
    let n = size_of(mark);
    if LONGEST < n {
        return scalars(message, rows, lent, most, start, first, ancestry);
    }
    let run = alike(message, rows, lent, most, mark, n, start, first, ancestry);
    let left = most - run.count;
    let more = scalars(message, rows, lent, left, run.at, run.row, ancestry);
    let count = run.count + more.count;
    Members {
        at: more.at,
        row: more.row,
        count,
    }
}

// Members of an array or object, of one sort, from `start` and `first` on: `most` of them at most, and no more than rows are lent for;
// there may be none.
pub fn several(
    message: &[u8],
    rows: &mut [u32],
    lent: usize,
    brace: bool,
    most: usize,
    start: usize,
    first: usize,
    ancestry: Ancestry,
) -> Members
    requires { Here message.now lent start first }
    ensures { RunMeets result message.now lent (opening_of brace) most start first (ancestry_of ancestry) rows.old rows.new }
{
    if brace {
        return pairs(message, rows, lent, most, start, first, ancestry);
    }
    values(message, rows, lent, most, start, first, ancestry)
}
