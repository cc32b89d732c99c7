// The value of a scalar: of bytes under a mark, and at a place of the message.
ghost use Rattle.std.specs.Prelude.{◌≡◌, true, ◌&&◌, ◌^◌, ◌≤◌, ◌<◌, length, get_or, eqb};
ghost use Rattle.format.specs.Marks.{is_signed, is_scalar, width, leaf_width, 'T'};
ghost use Rattle.format.specs.Values as Values;
ghost use Rattle.format.specs.Values.{twos_complement, scalar_at};
ghost use Rattle.format.specs.Answers.{kind_of, value_of, nan_apart, valued};
ghost use Rattle.values.specs.Due.{due as due_of};
ghost use Rattle.values.specs.Answers.{NansApart};

use crate::floats::{double, single};
use crate::half::single_bits;
use content::is_content;
use format::answers::{Kind, Token, Value};
use format::marks::Mark;
use format::refusals::Refusal;
use scan::bytes::within;
use scan::integers::little_endian;

// The number n under a signed mark, in two's complement. By hand, since the width is the mark's: std's `cast_signed` has it from the
// type, and a match with a cast in each of four arms is no plainer.
fn signed(mark: Mark, n: u64) -> i64
    requires { (is_signed mark.0 ≡ true) × (n < 256 ^ width mark.0) }
    ensures { result ≡ twos_complement mark.0 n }
{
    let width = mark.width();
    let half = 1u64 << (8 * width - 1);
    if n < half {
        return n as i64;
    }
    let below = (half - 1) - (n - half);
    -1 - (below as i64)
}

// Whether a boolean is true: by its byte or, where it carries nothing, by its mark.
fn is_true(mark: u8, bytes: &[u8]) -> bool
    ensures { result ≡ eqb (get_or bytes.now 0 mark) 'T' }
{
    *bytes.first().unwrap_or(&mark) == Mark::TRUE
}

// The value of bytes under a mark, no more of them than go with it.
fn value_of(mark: Mark, bytes: &[u8]) -> Value
    requires { length bytes.now ≤ leaf_width mark.0 }
    ensures is { value_of result ≡ Values.value_of mark.0 bytes.now }
    ensures apart { nan_apart result ≡ true }
{
    let n = little_endian(bytes, 0, bytes.len());
    if mark.is_signed() {
        return Value::Signed(signed(mark, n));
    }
    if mark.is_integer() {
        return Value::Unsigned(n);
    }
    let letter = mark.0;
    match letter {
        Mark::HALF => single(single_bits(n as u16)),
        Mark::SINGLE => single(n as u32),
        Mark::DOUBLE => double(n),
        Mark::CHAR => {
            let code = n as u8;
            Value::Char(code)
        }
        Mark::BYTE => {
            let byte = n as u8;
            Value::Byte(byte)
        }
        Mark::TRUE => Value::Boolean(is_true(letter, bytes)),
        Mark::FALSE => Value::Boolean(is_true(letter, bytes)),
        _ => Value::Null,
    }
}

// The bytes that go with a mark in a token of this kind.
fn due(kind: Kind, mark: Mark) -> usize
    ensures { result ≡ due_of (kind_of kind) mark.0 }
{
    if let Kind::Leaf = kind {
        mark.leaf_width()
    } else {
        mark.width()
    }
}

// Whether a word is a scalar's mark, and a token of this kind under it is so wide.
fn mark_fits(kind: Kind, mark: u32, wide: usize) -> bool
    ensures { result ≡ (is_scalar mark && eqb wide (due_of (kind_of kind) mark)) }
{
    let letter = Mark::of(mark);
    if !letter.is_scalar() {
        return false;
    }
    wide == due(kind, letter)
}

// The scalar of this kind under a mark, whose bytes are so wide and start at `first`. Any numbers may be asked for.
pub fn scalar_at(
    message: &[u8],
    kind: Kind,
    mark: u32,
    first: usize,
    wide: usize,
) -> Result<Token, Refusal>
    ensures is { valued result ≡ scalar_at message.now (kind_of kind) (due_of (kind_of kind) mark) (record { mark = mark; first = first; wide = wide }) }
    ensures apart { NansApart result }
{
    if !mark_fits(kind, mark, wide) {
        return Err(Refusal::RowsDontFit);
    }
    if !within(message, first, wide) {
        return Err(Refusal::RowsDontFit);
    }
    let letter = Mark::of(mark);
    let bytes = &message[first..first + wide];
    if !is_content(letter.0, bytes) {
        return Err(Refusal::RowsDontFit);
    }
    Ok(Token {
        kind,
        value: value_of(letter, bytes),
    })
}
