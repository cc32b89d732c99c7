// What the bytes under a mark may be: text, JSON numbers, chars, booleans.
#![tactic(auto)]

pub mod json;
pub mod text;

ghost use Rattle.std.specs.Prelude.{◌≡◌, leb};
ghost use Rattle.format.specs.Conditions.{all};
ghost use Rattle.format.specs.Marks.{is_boolean};
ghost use Rattle.format.specs.Content.{is_content};

use crate::json::is_number;
use crate::text::is_text;
use format::marks::Mark;

// Whether every byte is a char, at most 127. The loop has no branch and no early end, so that it takes many bytes at a time.
pub fn are_chars(bytes: &[u8]) -> bool
    ensures { result ≡ all (λ b. leb b 127) bytes.now }
{
    let mut chars = true;
    for &b in bytes {
        chars = chars & (b <= 127);
    }
    chars
}

fn is_boolean(b: u8) -> bool
    ensures { result ≡ is_boolean b }
{
    if b == Mark::TRUE {
        return true;
    }
    b == Mark::FALSE
}

// Whether every byte is a boolean, `T` or `F`.
fn are_booleans(bytes: &[u8]) -> bool
    ensures { result ≡ all is_boolean bytes.now }
{
    for &b in bytes {
        if !is_boolean(b) {
            return false;
        }
    }
    true
}

// Whether the bytes are right under the mark.
pub fn is_content(mark: u8, bytes: &[u8]) -> bool
    ensures { result ≡ is_content mark bytes.now }
{
    match mark {
        Mark::TEXT => is_text(bytes),
        Mark::HIGH_PRECISION => is_number(bytes),
        Mark::CHAR => are_chars(bytes),
        Mark::TRUE => are_booleans(bytes),
        _ => true,
    }
}
