// Where a scalar ends; none where a few bytes don't tell, which is left to the reader.
ghost use Rattle.std.specs.Prelude.{◌≡◌, ◌≤◌, ◌<◌, length, get_or, IfSome};
ghost use Rattle.format.specs.Limits.{limit};
ghost use Rattle.ends.specs.Ends.{Sized, Sizes, ScalarEnds};

use crate::sizes::{LONGEST, size_by_jump};
use format::marks::Mark;

// A byte as a number.
fn number(b: u8) -> usize
    ensures { result ≡ b }
{
    b as usize
}

// A char.
fn char_end(message: &[u8], at: usize) -> Option<usize>
    requires { (at ≤ length message.now) × (length message.now ≤ limit) }
    ensures { IfSome result (ScalarEnds message.now at) }
{
    if message.len() - at < 2 {
        return None;
    }
    if message[at] != Mark::CHAR {
        return None;
    }
    if 127 < message[at + 1] {
        return None;
    }
    Some(at + 2)
}

// A scalar, where its mark and payload have so many bytes; a char, where that is more than there are.
fn sized_end(message: &[u8], at: usize, n: usize) -> Option<usize>
    requires { (at < length message.now) × (length message.now ≤ limit) × Sized (get_or message.now at 0) n }
    ensures { IfSome result (ScalarEnds message.now at) }
{
    if message.len() - at < n {
        return char_end(message, at);
    }
    Some(at + n)
}

// A mark and the highest bit of the byte after it: `C`, and a byte over 127.
const HIGH_CHAR: u32 = 135;

// A scalar in an array, with two bytes after it at least. Whether a char is over 127 is one test with its mark, since a jump by the
// mark would be guessed wrong; the two bytes keep the compiler from making one for the shortest.
pub fn scalar_end(message: &[u8], sizes: &[u8; 256], at: usize) -> Option<usize>
    requires { (at ≤ length message.now) × (length message.now ≤ limit) × Sizes sizes.now }
    ensures { IfSome result (ScalarEnds message.now at) }
{
    let left = message.len() - at;
    if left < 2 {
        return None;
    }
    let mark = message[at];
    let first = message[at + 1];
    let both = (mark as u32) * 2 + ((first / 128) as u32);
    if both == HIGH_CHAR {
        return None;
    }
    let n = number(sizes[number(mark)]);
    if LONGEST < n {
        return None;
    }
    if left - 2 < n {
        return None;
    }
    Some(at + n)
}

// A scalar under this mark, which goes with so many bytes: nothing waits for a table.
pub fn alike_end(message: &[u8], mark: u8, n: usize, at: usize) -> Option<usize>
    requires { (at ≤ length message.now) × (length message.now ≤ limit) × Sized mark n }
    ensures { IfSome result (ScalarEnds message.now at) }
{
    if message.len() <= at {
        return None;
    }
    if message[at] != mark {
        return None;
    }
    sized_end(message, at, n)
}

// A scalar in an object.
pub fn scalar_value_end(message: &[u8], at: usize) -> Option<usize>
    requires { (at ≤ length message.now) × (length message.now ≤ limit) }
    ensures { IfSome result (ScalarEnds message.now at) }
{
    if message.len() <= at {
        return None;
    }
    let n = size_by_jump(message[at]);
    sized_end(message, at, n)
}
