// What the bytes of a text, a high-precision number, a char and a boolean may be.
ghost use Rattle.std.specs.Prelude.{◌≤◌, length, IfSome};

// How many bytes the character with this lead byte has after it; none where it is no lead byte.
fn beyond(lead: u8) -> Option<usize> {
    match lead {
        0x00..=0x7F => Some(0),
        0xC0..=0xDF => Some(1),
        0xE0..=0xEF => Some(2),
        0xF0..=0xF7 => Some(3),
        _ => None,
    }
}

// Whether bytes are all 80 to BF.
fn are_following(bytes: &[u8]) -> bool {
    bytes.iter().all(|b| 0x80 <= *b && *b <= 0xBF)
}

// The bytes after the rest of a character with this lead byte; none where that is wrong.
fn after_character(lead: u8, bytes: &[u8]) -> Option<&[u8]>
    ensures { IfSome result (λ after. length after.now ≤ length bytes.now) }
{
    let (following, after) = bytes.split_at_checked(beyond(lead)?)?;
    if are_following(following) {
        Some(after)
    } else {
        None
    }
}

// Whether bytes are whole characters.
fn is_text(bytes: &[u8]) -> bool {
    let mut left = bytes;
    // No `for`: a character takes one to four bytes.
    while let Some((lead, rest)) = left.split_first() {
        let Some(after) = after_character(*lead, rest) else {
            return false;
        };
        left = after;
    }
    true
}

// The bytes after one of some choices; none where none of them stands here.
fn after_one_of<'a>(bytes: &'a [u8], choices: &[u8]) -> Option<&'a [u8]> {
    let (first, rest) = bytes.split_first()?;
    if choices.contains(first) {
        Some(rest)
    } else {
        None
    }
}

// The bytes after the digits that stand here; none where no digit does.
fn after_digits(bytes: &[u8]) -> Option<&[u8]> {
    let digits = bytes.iter().take_while(|b| b.is_ascii_digit()).count();
    if digits == 0 {
        return None;
    }
    bytes.get(digits..)
}

// The bytes after the whole part of a number; none where there is none.
fn after_whole(bytes: &[u8]) -> Option<&[u8]> {
    match after_one_of(bytes, b"0") {
        Some(after) => Some(after),
        None => after_digits(bytes),
    }
}

// The bytes after a point and digits, where a point stands here; none where it has no digits.
fn after_fraction(bytes: &[u8]) -> Option<&[u8]> {
    match after_one_of(bytes, b".") {
        Some(digits) => after_digits(digits),
        None => Some(bytes),
    }
}

// The bytes after an exponent, where an `e` or `E` stands here; none where it has no digits.
fn after_exponent(bytes: &[u8]) -> Option<&[u8]> {
    match after_one_of(bytes, b"eE") {
        Some(sign) => after_digits(after_one_of(sign, b"+-").unwrap_or(sign)),
        None => Some(bytes),
    }
}

// The bytes after a JSON number; none where none stands here.
fn after_number(bytes: &[u8]) -> Option<&[u8]> {
    let whole = after_one_of(bytes, b"-").unwrap_or(bytes);
    after_exponent(after_fraction(after_whole(whole)?)?)
}

// Whether bytes are a JSON number.
fn is_number(bytes: &[u8]) -> bool {
    after_number(bytes).is_some_and(|after| after.is_empty())
}

// Whether a byte is a char.
pub fn is_char(b: u8) -> bool {
    b < 128
}

// Whether bytes are right for a mark: a text's, a number's, a char's; in a record, a boolean's.
pub fn is_content(mark: u8, bytes: &[u8]) -> bool {
    match mark {
        b'S' => is_text(bytes),
        b'H' => is_number(bytes),
        b'C' => bytes.iter().all(|b| is_char(*b)),
        b'T' => bytes.iter().all(|b| matches!(*b, b'T' | b'F')),
        _ => true,
    }
}
