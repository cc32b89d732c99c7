// Extensions.
#![tactic(auto)]

ghost use Rattle.std.specs.Prelude.{◌≡◌, ◌+◌, ◌<◌, length};
ghost use Rattle.format.specs.Extensions.{size_of, extension as extension_at};
ghost use Rattle.rows.specs.Row.{ancestry_of};
ghost use Rattle.tokens.specs.Answers.{Meets, Here, Within};
ghost use Rattle.extensions.specs.Heads.{HeadMeets, HeadWithin};

use format::answers::Kind;
use format::limits::ID_LIMIT;
use format::marks::Mark;
use format::refusals::{Refusal, Refused};
use rows::Ancestry;
use scan::integers::{integer, integer_to};
use tokens::End;
use tokens::entry::{Entry, put};
use tokens::scalars::payload_end;

// What stands before an extension's payload: its id, and its payload's length and first byte.
#[derive(Clone, Copy)]
struct Head {
    id: u32,
    size: u32,
    start: usize,
}

// The size that an id asks for; the one given, where the id is opaque.
#[tactic(auto, unfolding(format::specs::Extensions::size_of))]
fn size_of(id: u32, given: u32) -> u32
    ensures { result ≡ size_of id given }
{
    match id {
        1 => 4,
        2 => 8,
        3 => 12,
        4 => 4,
        5 => 4,
        6 => 8,
        7 => 8,
        8 => 8,
        9 => 16,
        10 => 16,
        _ => given,
    }
}

// What stands before the payload of the extension at `at`: its id, whose limit is its own, and its length, which must be the size that the
// id asks for.
fn head_at(message: &[u8], at: usize) -> Result<Head, Refused>
    requires { at < length message.now }
    ensures meets { HeadMeets result message.now at }
    ensures bounds { HeadWithin result (at + 1) (length message.now) }
{
    let id = integer_to(message, ID_LIMIT, at + 1)?;
    let size = integer(message, id.next)?;
    if size.number != size_of(id.number, size.number) {
        return Err(Refused(Refusal::WrongContent, at));
    }
    Ok(Head {
        id: id.number,
        size: size.number,
        start: size.next,
    })
}

// The extension at `at`.
pub fn extension(
    message: &[u8],
    rows: &mut [u32],
    lent: usize,
    at: usize,
    row: usize,
    ancestry: Ancestry,
) -> Result<End, Refused>
    requires { Here message.now lent at row × (at < length message.now) }
    ensures meets { Meets result (extension_at message.now lent at row) row 1 (ancestry_of ancestry) rows.old rows.new }
    ensures bounds { Within result (at + 1) (length message.now) lent }
{
    if lent <= row {
        return Err(Refused(Refusal::NoRowLeft, at));
    }
    let head = head_at(message, at)?;
    let size = head.size as usize;
    let next = payload_end(message, Mark::EXTENSION, head.start, size)?;
    let link = row + 1;
    put(
        rows,
        row,
        Entry {
            kind: Kind::Extension,
            mark: Mark::EXTENSION,
            first: at,
            payload: head.start,
            extent: size,
            count: head.id as usize,
            order: 0,
        },
        link,
        ancestry,
    );
    Ok(End {
        at: next,
        row: link,
    })
}
