// The walk: members one after another in a loop, and what nests in them by a call, with the levels left as the falling number.
ghost use Rattle.std.specs.Prelude.{ℕ, ◌+◌, ◌≤◌, ◌<◌, ◌≡◌, length};
ghost use Rattle.format.specs.Outcome.{done};
ghost use Rattle.format.specs.Limits.{limit};
ghost use Rattle.format.specs.Marks.{opening_of, closes};
ghost use Rattle.format.specs.Tokens.{Forest};
ghost use Rattle.format.specs.Bytes.{skip as skip_in};
ghost use Rattle.format.specs.Sequences.{spaced, repeat, until};
ghost use Rattle.format.specs.Grammars.{new};
ghost use Rattle.format.specs.Read.{nested};
ghost use Rattle.tokens.specs.Answers.{Here};
ghost use Rattle.items.specs.Headers.{member_of};
ghost use Rattle.seek.specs.Walks.{Walks, Comes, PastWithin};

use crate::steps::{Past, Stop, typed_at};
use format::answers::Edition;
use format::marks::closing_mark;
use items::headers::{Header, header_at};
use items::starts::{Item, member_start};
use rows::OUTERMOST;
use scan::noops::skip;

// A member, with so many levels left for what nests in it, and `left` tables to pass. No row is stored, so that any ancestry will do.
#[cycle(container_counted_member_plain)]
pub fn member(
    message: &[u8],
    levels: usize,
    brace: bool,
    at: usize,
    row: usize,
    left: usize,
) -> Result<Past, Stop>
    requires { Here message.now (length message.now) at row }
    ensures meets { Walks result message.now row left (member_of message.now (length message.now) new levels (opening_of brace) at row) }
    ensures bounds { PastWithin result (at + 1) (length message.now) }
{
    let end = message.len();
    let mut none = [0u32; 0];
    let item = member_start(
        Edition::New,
        message,
        &mut none,
        end,
        brace,
        at,
        row,
        OUTERMOST,
    )?;
    match item {
        Item::Whole(end) => Ok(Past {
            at: end.at,
            row: end.row,
            left,
        }),
        Item::Opens {
            brace: opened,
            at: here,
            row: below,
        } => container(message, levels, opened, here, below, left),
    }
}

// n members, from `start` and `first` on, with `number` tables to pass.
#[cycle(container_counted_member_plain)]
fn counted(
    message: &[u8],
    levels: usize,
    brace: bool,
    n: usize,
    start: usize,
    first: usize,
    number: usize,
) -> Result<Past, Stop>
    requires { Here message.now (length message.now) start first × (n ≤ limit) }
    ensures meets { Walks result message.now first number (repeat n (spaced message.now (member_of message.now (length message.now) new levels (opening_of brace))) start first) }
    ensures bounds { PastWithin result start (length message.now) }
{
    let mut past = Past {
        at: start,
        row: first,
        left: number,
    };
    for count in 0..n {
        let here = skip(message, past.at);
        past = member(message, levels, brace, here, past.row, past.left)?;
    }
    Ok(past)
}

// Members up to the closing mark, which is passed too, from `start` and `first` on, with `number` tables to pass.
#[cycle(container_counted_member_plain)]
fn plain(
    message: &[u8],
    levels: usize,
    brace: bool,
    start: usize,
    first: usize,
    number: usize,
) -> Result<Past, Stop>
    requires { Here message.now (length message.now) start first }
    ensures meets { (f : Forest) (end : ℕ) → until message.now (length message.now) (skip_in message.now) (closes (opening_of brace)) (member_of message.now (length message.now) new levels (opening_of brace)) start first ≡ done (f, end) → Comes result message.now first number f (end + 1) }
    ensures bounds { PastWithin result start (length message.now) }
{
    let end = message.len();
    let closing = closing_mark(brace);
    let mut past = Past {
        at: start,
        row: first,
        left: number,
    };
    // No `for`: how many members there are is known only at the closing mark.
    loop {
        let here = skip(message, past.at);
        if end <= here {
            return Err(Stop::Unread);
        }
        if message[here] == closing {
            return Ok(Past {
                at: here + 1,
                row: past.row,
                left: past.left,
            });
        }
        past = member(message, levels, brace, here, past.row, past.left)?;
    }
}

// The container at `at`, with so many levels left, and `left` tables to pass.
#[cycle(container_counted_member_plain)]
fn container(
    message: &[u8],
    levels: usize,
    brace: bool,
    at: usize,
    row: usize,
    left: usize,
) -> Result<Past, Stop>
    requires { Here message.now (length message.now) at row × (at < length message.now) }
    ensures meets { Walks result message.now row left (nested message.now (length message.now) new levels (opening_of brace) at row) }
    ensures bounds { PastWithin result (at + 1) (length message.now) }
{
    let end = message.len();
    let below = row + 1;
    match header_at(message, end, levels, at, row)? {
        Header::Typed => typed_at(message, brace, at, row, left),
        Header::Counted { count, start } => {
            counted(message, levels - 1, brace, count, start, below, left)
        }
        Header::Plain => plain(message, levels - 1, brace, at + 1, below, left),
    }
}
