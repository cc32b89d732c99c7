// Bytes put into lent bytes one after another, and the pieces that tokens are written in. What has no room is only counted, so that a
// caller who runs out of room learns how much was needed.
#![tactic(auto)]

pub mod bytes;

ghost use Rattle.std.specs.Prelude.{[], ◌∷◌, ◌++◌, ◌<◌, ◌^◌, eqb};
ghost use Rattle.format.specs.Conditions.{when◌then◌else◌};
ghost use Rattle.format.specs.Marks.{'#', 'S'};
ghost use Rattle.format.specs.HouseForm.{small_integer};
ghost use Rattle.pieces.specs.Puts.{Puts};
ghost use Rattle.pieces.specs.Shapes.{shape_start, shape_end};

use crate::bytes::{put, put_integer, put_part};
use format::marks::Mark;

// A scalar: its mark and its bytes.
pub fn put_scalar(output: &mut [u8], at: usize, mark: u8, part: &[u8]) -> usize
    requires { at < 2 ^ 62 }
    ensures { Puts output.old output.new at result (mark ∷ part.now) }
{
    let next = put(output, at, mark);
    put_part(output, next, part)
}

// A key: its length and its bytes.
pub fn put_key(output: &mut [u8], at: usize, n: u32, part: &[u8]) -> usize
    requires { at < 2 ^ 60 }
    ensures { Puts output.old output.new at result (small_integer n ++ part.now) }
{
    let next = put_integer(output, at, n);
    put_part(output, next, part)
}

// A text or a high-precision number: its mark, its length and its bytes.
pub fn put_text(output: &mut [u8], at: usize, mark: u8, n: u32, part: &[u8]) -> usize
    requires { at < 2 ^ 59 }
    ensures { Puts output.old output.new at result (mark ∷ small_integer n ++ part.now) }
{
    let next = put(output, at, mark);
    put_key(output, next, n, part)
}

// What an array or object opens with: its mark and its count.
pub fn put_counted(output: &mut [u8], at: usize, mark: u8, count: u32) -> usize
    requires { at < 2 ^ 60 }
    ensures { Puts output.old output.new at result (mark ∷ '#' ∷ small_integer count) }
{
    let next = put(output, at, mark);
    let after = put(output, next, Mark::COUNT);
    put_integer(output, after, count)
}

// A schema leaf: its mark, and the width of a text.
pub fn put_leaf(output: &mut [u8], at: usize, mark: u8, wide: u32) -> usize
    requires { at < 2 ^ 60 }
    ensures { Puts output.old output.new at result (mark ∷ (when eqb mark 'S' then small_integer wide else [])) }
{
    let next = put(output, at, mark);
    if mark != Mark::TEXT {
        return next;
    }
    put_integer(output, next, wide)
}

// What stands before the dimensions of a shape.
pub fn put_shape_start(output: &mut [u8], at: usize, order: u32, count: u32) -> usize
    requires { at < 2 ^ 60 }
    ensures { Puts output.old output.new at result (shape_start order count) }
{
    if order == 0 {
        return put_integer(output, at, count);
    }
    let next = put(output, at, Mark::ARRAY);
    if order == 1 {
        return next;
    }
    put(output, next, Mark::ARRAY)
}

// What stands after them.
pub fn put_shape_end(output: &mut [u8], at: usize, order: u32) -> usize
    requires { at < 2 ^ 60 }
    ensures { Puts output.old output.new at result (shape_end order) }
{
    if order == 0 {
        return at;
    }
    let next = put(output, at, Mark::ARRAY_END);
    if order == 1 {
        return next;
    }
    put(output, next, Mark::ARRAY_END)
}
