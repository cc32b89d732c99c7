// Arrays and objects: what they hold is read in a loop, and what nests in it by a call, with the levels left as the falling number.
ghost use Rattle.std.specs.Prelude.{◌+◌, ◌-◌, ◌≤◌, ◌<◌, length};
ghost use Rattle.format.specs.Limits.{limit};
ghost use Rattle.format.specs.Marks.{opening_of, closes};
ghost use Rattle.format.specs.Sequences.{spaced, repeat};
ghost use Rattle.format.specs.Answers.{grammar_of};
ghost use Rattle.format.specs.Read.{nested};
ghost use Rattle.rows.specs.Row.{ancestry_of};
ghost use Rattle.tokens.specs.Answers.{Meets, Here, Within};
ghost use Rattle.containers.specs.Lists.{ListMeets, ListWithin};
ghost use Rattle.runs.specs.Runs.{Begins};
ghost use Rattle.items.specs.Headers.{member_of};
ghost use Rattle.nesting.specs.Values.{PlainMeets, RestMeets, RestWithin, FollowingMeets, FollowingWithin, EachByte};

use containers::lists::{close, enclose};
use format::answers::Edition;
use format::marks::{Mark, closing_mark};
use format::refusals::{Refusal, Refused};
use items::headers::{Header, header_at, is_opening, opens_deep, opens_plain};
use items::starts::{Item, member_start};
use rows::{Ancestry, held_by};
use runs::members::several;
use scan::bytes::{byte_at, stands};
use scan::noops::skip;
use tokens::{End, Members};
use typed::container::typed;

// A member, with so many levels left for what nests in it.
#[cycle(container_counted_deep_following_held_member_plain_rest)]
pub fn member(
    edition: Edition,
    message: &[u8],
    rows: &mut [u32],
    lent: usize,
    levels: usize,
    brace: bool,
    at: usize,
    row: usize,
    ancestry: Ancestry,
) -> Result<End, Refused>
    requires { Here message.now lent at row × (ancestry.depth ≤ at) }
    ensures meets { Meets result (member_of message.now lent (grammar_of edition) levels (opening_of brace) at row) row 1 (ancestry_of ancestry) rows.old rows.new }
    ensures bounds { Within result (at + 1) (length message.now) lent }
{
    match member_start(edition, message, rows, lent, brace, at, row, ancestry)? {
        Item::Whole(end) => Ok(end),
        Item::Opens {
            brace: inner,
            at: here,
            row: below,
        } => {
            container(
                edition, message, rows, lent, levels, inner, here, below, ancestry,
            )
        }
    }
}

// n members, from `start` and `first` on.
#[cycle(container_counted_deep_following_held_member_plain_rest)]
pub fn counted(
    edition: Edition,
    message: &[u8],
    rows: &mut [u32],
    lent: usize,
    levels: usize,
    brace: bool,
    n: usize,
    start: usize,
    first: usize,
    ancestry: Ancestry,
) -> Result<Members, Refused>
    requires { Here message.now lent start first × (n ≤ limit) × (ancestry.depth ≤ start) }
    ensures meets { ListMeets result (repeat n (spaced message.now (member_of message.now lent (grammar_of edition) levels (opening_of brace))) start first) first (ancestry_of ancestry) rows.old rows.new }
    ensures bounds { ListWithin result start (length message.now) lent }
{
    let mut at = start;
    let mut row = first;
    let mut count = 0;
    // no `for`: a turn reads as many as `several` does
    while count < n {
        let run = several(message, rows, lent, brace, n - count, at, row, ancestry);
        if 0 < run.count {
            at = run.at;
            row = run.row;
            count += run.count;
        } else {
            let here = skip(message, at);
            let end = member(
                edition, message, rows, lent, levels, brace, here, row, ancestry,
            )?;
            at = end.at;
            row = end.row;
            count += 1;
        }
    }
    Ok(Members { at, row, count })
}

// The member at `at`, or it and those of its sort after it.
#[cycle(container_counted_deep_following_held_member_plain_rest)]
fn following(
    edition: Edition,
    message: &[u8],
    rows: &mut [u32],
    lent: usize,
    levels: usize,
    brace: bool,
    at: usize,
    row: usize,
    ancestry: Ancestry,
) -> Result<Members, Refused>
    requires { Here message.now lent at row × Begins message.now (closes (opening_of brace)) at × (ancestry.depth ≤ at) }
    ensures meets { FollowingMeets result message.now (closes (opening_of brace)) (member_of message.now lent (grammar_of edition) levels (opening_of brace)) at row (ancestry_of ancestry) rows.old rows.new }
    ensures bounds { FollowingWithin result at (length message.now) lent }
{
    if opens_plain(message, lent, levels, brace, at, row) {
        let inner = message[at] == Mark::OBJECT;
        let start = at + 1;
        let below = row + 1;
        let children = held_by(row, ancestry);
        let list = held(
            edition,
            message,
            rows,
            lent,
            levels - 1,
            inner,
            start,
            below,
            children,
        )?;
        let end = enclose(rows, inner, at, row, start, 1, list, ancestry);
        return Ok(Members {
            at: end.at,
            row: end.row,
            count: 1,
        });
    }
    let run = several(message, rows, lent, brace, message.len(), at, row, ancestry);
    if 0 < run.count {
        return Ok(run);
    }
    let end = member(
        edition, message, rows, lent, levels, brace, at, row, ancestry,
    )?;
    Ok(Members {
        at: end.at,
        row: end.row,
        count: 1,
    })
}

// Members up to the closing mark, from `start` and `first` on.
#[cycle(container_counted_deep_following_held_member_plain_rest)]
pub fn plain(
    edition: Edition,
    message: &[u8],
    rows: &mut [u32],
    lent: usize,
    levels: usize,
    brace: bool,
    start: usize,
    first: usize,
    ancestry: Ancestry,
) -> Result<Members, Refused>
    requires { Here message.now lent start first × (ancestry.depth ≤ start) }
    ensures meets { PlainMeets result message.now lent (grammar_of edition) levels (opening_of brace) start first (ancestry_of ancestry) rows.old rows.new }
    ensures bounds { ListWithin result start (length message.now - 1) lent }
    ensures few { EachByte result start }
{
    let end = message.len();
    let closing = closing_mark(brace);
    let mut at = start;
    let mut row = first;
    let mut count = 0;
    // No `for`: how many members there are is known only at the closing mark.
    loop {
        at = skip(message, at);
        if end <= at {
            return Err(Refused(Refusal::EndsTooEarly, end));
        }
        if message[at] == closing {
            return Ok(Members { at, row, count });
        }
        let list = following(
            edition, message, rows, lent, levels, brace, at, row, ancestry,
        )?;
        at = list.at;
        row = list.row;
        count += list.count;
    }
}

// Members up to the closing mark, after `count` that are read and end before `at` and `row`.
#[cycle(container_counted_deep_following_held_member_plain_rest)]
fn rest(
    edition: Edition,
    message: &[u8],
    rows: &mut [u32],
    lent: usize,
    levels: usize,
    brace: bool,
    at: usize,
    row: usize,
    count: usize,
    ancestry: Ancestry,
) -> Result<Members, Refused>
    requires { Here message.now lent at row × (count ≤ at) × (ancestry.depth ≤ at) }
    ensures meets { RestMeets result message.now lent (grammar_of edition) levels (opening_of brace) at row count (ancestry_of ancestry) rows.old rows.new }
    ensures bounds { RestWithin result (length message.now - 1) lent at count }
{
    if stands(message, at, closing_mark(brace)) {
        return Ok(Members { at, row, count });
    }
    let list = plain(
        edition, message, rows, lent, levels, brace, at, row, ancestry,
    )?;
    Ok(Members {
        at: list.at,
        row: list.row,
        count: count + list.count,
    })
}

// The same as `plain`, where a container comes first: by a call for each level, as long as containers begin with containers.
#[cycle(container_counted_deep_following_held_member_plain_rest)]
fn deep(
    edition: Edition,
    message: &[u8],
    rows: &mut [u32],
    lent: usize,
    levels: usize,
    brace: bool,
    start: usize,
    first: usize,
    ancestry: Ancestry,
) -> Result<Members, Refused>
    requires { Here message.now lent start first × (start < length message.now) × (ancestry.depth ≤ start) }
    ensures meets { PlainMeets result message.now lent (grammar_of edition) levels (opening_of brace) start first (ancestry_of ancestry) rows.old rows.new }
    ensures bounds { ListWithin result start (length message.now - 1) lent }
    ensures few { EachByte result start }
{
    if !opens_deep(message, lent, levels, brace, start, first) {
        return rest(
            edition, message, rows, lent, levels, brace, start, first, 0, ancestry,
        );
    }
    let inner = message[start] == Mark::OBJECT;
    let next = start + 1;
    let below = first + 1;
    let children = held_by(first, ancestry);
    let list = deep(
        edition,
        message,
        rows,
        lent,
        levels - 1,
        inner,
        next,
        below,
        children,
    )?;
    let end = enclose(rows, inner, start, first, next, 1, list, ancestry);
    rest(
        edition, message, rows, lent, levels, brace, end.at, end.row, 1, ancestry,
    )
}

// The same as `plain`, where most have members of one sort only: these are read first, unless a container comes first.
#[cycle(container_counted_deep_following_held_member_plain_rest)]
fn held(
    edition: Edition,
    message: &[u8],
    rows: &mut [u32],
    lent: usize,
    levels: usize,
    brace: bool,
    start: usize,
    first: usize,
    ancestry: Ancestry,
) -> Result<Members, Refused>
    requires { Here message.now lent start first × (ancestry.depth ≤ start) }
    ensures meets { PlainMeets result message.now lent (grammar_of edition) levels (opening_of brace) start first (ancestry_of ancestry) rows.old rows.new }
    ensures bounds { ListWithin result start (length message.now - 1) lent }
    ensures few { EachByte result start }
{
    if is_opening(byte_at(message, start)) {
        return deep(
            edition, message, rows, lent, levels, brace, start, first, ancestry,
        );
    }
    let run = several(
        message,
        rows,
        lent,
        brace,
        message.len(),
        start,
        first,
        ancestry,
    );
    rest(
        edition, message, rows, lent, levels, brace, run.at, run.row, run.count, ancestry,
    )
}

// The container at `at`, with so many levels left.
#[cycle(container_counted_deep_following_held_member_plain_rest)]
pub fn container(
    edition: Edition,
    message: &[u8],
    rows: &mut [u32],
    lent: usize,
    levels: usize,
    brace: bool,
    at: usize,
    row: usize,
    ancestry: Ancestry,
) -> Result<End, Refused>
    requires { Here message.now lent at row × (at < length message.now) × (ancestry.depth ≤ at) }
    ensures meets { Meets result (nested message.now lent (grammar_of edition) levels (opening_of brace) at row) row 1 (ancestry_of ancestry) rows.old rows.new }
    ensures bounds { Within result (at + 1) (length message.now) lent }
{
    let below = row + 1;
    let children = held_by(row, ancestry);
    match header_at(message, lent, levels, at, row)? {
        Header::Typed => typed(message, rows, lent, brace, at, row, ancestry),
        Header::Counted { count: n, start } => {
            let left = levels - 1;
            let list = counted(
                edition, message, rows, lent, left, brace, n, start, below, children,
            );
            close(rows, brace, at, row, start, 0, list, ancestry)
        }
        Header::Plain => {
            let start = at + 1;
            let left = levels - 1;
            let list = plain(
                edition, message, rows, lent, left, brace, start, below, children,
            );
            close(rows, brace, at, row, start, 1, list, ancestry)
        }
    }
}
