// Bytes, parts and integers.
ghost use Rattle.std.specs.Prelude.{[], ◌∷◌, ◌<◌, ◌≤◌, ◌^◌};
ghost use Rattle.format.specs.Marks.{width};
ghost use Rattle.format.specs.HouseForm.{digits, small_integer};
ghost use Rattle.pieces.specs.Puts.{Puts};

use crate::put_scalar;
use format::marks::Mark;

// One byte; the place after it.
pub fn put(output: &mut [u8], at: usize, byte: u8) -> usize
    requires { at < 2 ^ 63 }
    ensures { Puts output.old output.new at result (byte ∷ []) }
{
    if output.len() <= at {
        return at + 1;
    }
    output[at] = byte;
    at + 1
}

// All bytes of a part; the place after them.
pub fn put_part(output: &mut [u8], at: usize, part: &[u8]) -> usize
    requires { at < 2 ^ 63 }
    ensures { Puts output.old output.new at result part.now }
{
    let next = at + part.len();
    if output.len() < next {
        return next;
    }
    // No `copy_from_slice`: of the one to eight bytes that most values have it takes 7.1 to 7.4 ns, and this 5.0 to 6.5.
    for i in 0..part.len() {
        output[at + i] = part[i];
    }
    next
}

// A number under a mark: the mark, and as many of the number's bytes as go with it, the lowest first.
fn put_number(output: &mut [u8], at: usize, mark: u8, n: u32) -> usize
    requires { (at < 2 ^ 61) × (width mark ≤ 4) }
    ensures { Puts output.old output.new at result (mark ∷ digits (width mark) n) }
{
    let digits = n.to_le_bytes();
    put_scalar(output, at, mark, &digits[..Mark(mark).width()])
}

// A length, a count or a dimension: the smallest of `U u m` that holds it, and its number.
pub fn put_integer(output: &mut [u8], at: usize, n: u32) -> usize
    requires { at < 2 ^ 61 }
    ensures { Puts output.old output.new at result (small_integer n) }
{
    if n < 256 {
        return put_number(output, at, Mark::UINT8, n);
    }
    if n < 65536 {
        return put_number(output, at, Mark::UINT16, n);
    }
    put_number(output, at, Mark::UINT32, n)
}
