// Text: UTF-8 by shape.
ghost use Rattle.std.specs.Prelude.{◌≡◌};
ghost use Rattle.format.specs.Text.{is_text};
ghost use Rattle.content.specs.Owed.{is_owed, can_stand};

use crate::are_chars;

// Whether a byte 80-BF is owed after the bytes a, b and c.
fn is_owed(a: u8, b: u8, c: u8) -> bool
    ensures { result ≡ is_owed a b c }
{
    (0xC0 <= c) | (0xE0 <= b) | (0xF0 <= a)
}

// Whether x can stand after the bytes a, b and c: 80-BF where one is owed, 00-7F or C0-F7 where none is.
fn can_stand(a: u8, b: u8, c: u8, x: u8) -> bool
    ensures { result ≡ can_stand a b c x }
{
    (x <= 0xF7) & (is_owed(a, b, c) == ((0x80 <= x) & (x <= 0xBF)))
}

// Whether the bytes are text. The loop has no branch and no early end, so that it takes many bytes at a time.
pub fn is_text(bytes: &[u8]) -> bool
    ensures { result ≡ is_text bytes.now }
{
    if are_chars(bytes) {
        return true;
    }
    let mut stand = true;
    let mut a = 0;
    let mut b = 0;
    let mut c = 0;
    for &x in bytes {
        stand = stand & can_stand(a, b, c, x);
        a = b;
        b = c;
        c = x;
    }
    stand & !is_owed(a, b, c)
}
