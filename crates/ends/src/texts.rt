// Where a short text or a short key ends, and a member's value in an object; none where a few bytes don't tell, which is left to the reader.
ghost use Rattle.std.specs.Prelude.{◌≡◌, ◌+◌, ◌≤◌, ◌<◌, length, leb, IfSome};
ghost use Rattle.format.specs.Conditions.{all};
ghost use Rattle.format.specs.Limits.{limit};
ghost use Rattle.format.specs.Bytes.{bytes as bytes_of};
ghost use Rattle.ends.specs.Ends.{TextEnds, KeyEnds, ValueEnds};

use crate::scalars::scalar_value_end;
use content::are_chars;
use format::marks::Mark;

// Whether every byte is below 128, one by one: the way where they are few.
fn are_chars_singly(bytes: &[u8]) -> bool
    ensures { result ≡ all (λ b. leb b 127) bytes.now }
{
    for &b in bytes {
        if 127 < b {
            return false;
        }
    }
    true
}

// Whether the n bytes from `start` on are all below 128. Where they are few, all of 32 may be, which is seen at a time and by no jump
// that depends on n.
fn are_chars_from(message: &[u8], start: usize, n: usize) -> bool
    requires { start + n ≤ length message.now }
    ensures { result ≡ all (λ b. leb b 127) (bytes_of message.now start n) }
{
    if 32 < n {
        return are_chars(&message[start..start + n]);
    }
    if 32 <= message.len() - start {
        if are_chars(&message[start..start + 32]) {
            return true;
        }
    }
    are_chars_singly(&message[start..start + n])
}

// A text whose length stands under `U`, all below 128.
pub fn text_end(message: &[u8], at: usize) -> Option<usize>
    requires { (at ≤ length message.now) × (length message.now ≤ limit) }
    ensures { IfSome result (TextEnds message.now at) }
{
    let left = message.len() - at;
    if left < 3 {
        return None;
    }
    if message[at] != Mark::TEXT {
        return None;
    }
    if message[at + 1] != Mark::UINT8 {
        return None;
    }
    let n = message[at + 2] as usize;
    if left - 3 < n {
        return None;
    }
    let start = at + 3;
    let next = start + n;
    if are_chars_from(message, start, n) {
        return Some(next);
    }
    None
}

// A key whose length stands under `U`, all below 128.
pub fn key_end(message: &[u8], at: usize) -> Option<usize>
    requires { (at ≤ length message.now) × (length message.now ≤ limit) }
    ensures { IfSome result (KeyEnds message.now at) }
{
    let left = message.len() - at;
    if left < 2 {
        return None;
    }
    if message[at] != Mark::UINT8 {
        return None;
    }
    let n = message[at + 1] as usize;
    if left - 2 < n {
        return None;
    }
    let start = at + 2;
    let next = start + n;
    if are_chars_singly(&message[start..next]) {
        return Some(next);
    }
    None
}

// A member's value in an object: a scalar, or a text.
pub fn value_end(message: &[u8], at: usize) -> Option<usize>
    requires { (at ≤ length message.now) × (length message.now ≤ limit) }
    ensures { IfSome result (ValueEnds message.now at) }
{
    if let Some(end) = scalar_value_end(message, at) {
        return Some(end);
    }
    text_end(message, at)
}
