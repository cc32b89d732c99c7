// What the letters of marks are.
use crate::numbers::number;
use format::marks::Mark;

// The bytes that go with a mark.
pub fn width(mark: u8) -> u32 {
    number(Mark(mark).width())
}

// A mark of an integer that may be negative.
pub fn is_signed(mark: u8) -> bool {
    matches!(mark, b'i' | b'I' | b'l' | b'L')
}

// A mark of an integer record.
pub fn is_integer(mark: u8) -> bool {
    is_signed(mark) || matches!(mark, b'U' | b'u' | b'm' | b'M')
}

// A mark of a typed container: those with bytes.
pub fn is_type(mark: u8) -> bool {
    0 < width(mark)
}

// The mark of a value that is its mark and its bytes.
pub fn is_scalar(mark: u8) -> bool {
    matches!(mark, b'Z' | b'T' | b'F') || is_type(mark)
}

// The mark that closes what a mark opened.
pub fn closing(mark: u8) -> u8 {
    if mark == b'[' { b']' } else { b'}' }
}
