// Integers that are lengths, counts, dimensions and ids.
ghost use Rattle.std.specs.Prelude.{◌≡◌, ◌+◌, ◌≤◌, length};
ghost use Rattle.format.specs.Limits.{limit};
ghost use Rattle.format.specs.Marks.{width};
ghost use Rattle.format.specs.Bytes.{little, bytes};
ghost use Rattle.format.specs.Integers.{is_negative, number as number_in, integer_to, integer as integer_in};
ghost use Rattle.scan.specs.Numbers.{little_at, parsed, Bounded};

use format::limits::LIMIT;
use format::marks::Mark;
use format::refusals::{Refusal, Refused};

// The little-endian number of the `width` bytes from `at` on; 0 where they aren't all there, or are more than eight.
pub fn little_endian(message: &[u8], at: usize, width: usize) -> u64
    ensures { result ≡ little_at message.now at width }
{
    if 8 < width {
        return 0;
    }
    if message.len() < at {
        return 0;
    }
    if message.len() - at < width {
        return 0;
    }
    let mut n = 0u64;
    for k in 0..width {
        let b = message[at + (width - 1 - k)] as u64;
        n = n * 256 + b;
    }
    n
}

// Whether the number under the mark is negative: its highest bit is its sign.
fn is_negative(message: &[u8], mark: Mark, start: usize) -> bool
    requires { start + width mark.0 ≤ length message.now }
    ensures { result ≡ is_negative mark.0 (little (bytes message.now start (width mark.0))) }
{
    if !mark.is_signed() {
        return false;
    }
    let width = mark.width();
    let top = message[start + (width - 1)];
    127 < top
}

// An integer's number, and the place after it.
#[derive(Clone, Copy)]
pub struct Parsed {
    pub number: u32,
    pub next: usize,
}

// The number under a mark, at most `highest`, whose bytes start at `start`; `place` is where it is refused.
pub fn number(
    message: &[u8],
    highest: u32,
    mark: Mark,
    place: usize,
    start: usize,
) -> Result<Parsed, Refused>
    ensures is { parsed result ≡ number_in message.now highest mark.0 place start }
    ensures bounds { Bounded result highest (start + width mark.0) (length message.now) }
{
    let end = message.len();
    if end < start {
        return Err(Refused(Refusal::EndsTooEarly, end));
    }
    let width = mark.width();
    if end - start < width {
        return Err(Refused(Refusal::EndsTooEarly, end));
    }
    if is_negative(message, mark, start) {
        return Err(Refused(Refusal::WrongInteger, place));
    }
    let n = little_endian(message, start, width);
    if (highest as u64) < n {
        return Err(Refused(Refusal::OverLimit, place));
    }
    let next = start + width;
    Ok(Parsed {
        number: n as u32,
        next,
    })
}

// An integer record: a mark and its number, at most `highest`.
pub fn integer_to(message: &[u8], highest: u32, at: usize) -> Result<Parsed, Refused>
    ensures is { parsed result ≡ integer_to message.now highest at }
    ensures bounds { Bounded result highest (at + 2) (length message.now) }
{
    let end = message.len();
    if end <= at {
        return Err(Refused(Refusal::EndsTooEarly, end));
    }
    let mark = Mark(message[at]);
    if !mark.is_integer() {
        return Err(Refused(Refusal::NotAllowed, at));
    }
    number(message, highest, mark, at, at + 1)
}

// A length, a count or a dimension.
pub fn integer(message: &[u8], at: usize) -> Result<Parsed, Refused>
    ensures is { parsed result ≡ integer_in message.now at }
    ensures bounds { Bounded result limit (at + 2) (length message.now) }
{
    integer_to(message, LIMIT, at)
}
