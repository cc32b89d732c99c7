// Bytes and numbers of the input.
ghost use Rattle.std.specs.Prelude.{◌≤◌, length};

// A number, and the place after it.
#[derive(Clone, Copy)]
pub struct Number {
    pub value: usize,
    pub next: usize,
}

// The byte at a place; a line's end past the input's.
pub fn byte(text: &[u8], at: usize) -> u8 {
    text.get(at).copied().unwrap_or(b'\n')
}

// The place after this one.
pub fn after(at: usize) -> usize {
    at.saturating_add(1)
}

// The bytes from a place on.
fn rest(text: &[u8], from: usize) -> &[u8]
    ensures { length result.now ≤ length text.now }
{
    text.get(from..).unwrap_or(&[])
}

// A number with one more decimal digit. A number that has no room for one more is kept as it is: it is still larger than any
// count, length, row or index that is in range.
pub(crate) fn longer(value: usize, digit: u8) -> usize {
    match digit {
        b'0'..=b'9' if value < usize::MAX / 10 => value * 10 + usize::from(digit - b'0'),
        _ => value,
    }
}

// Whether the byte is a decimal digit.
pub fn is_digit(b: u8) -> bool {
    b.is_ascii_digit()
}

// The decimal number at a place: its digits up to the first other byte.
pub fn decimal(text: &[u8], from: usize) -> Number {
    let digits = rest(text, from).iter().take_while(|b| is_digit(**b));
    let mut value: usize = 0;
    let mut next = from;
    for digit in digits {
        value = longer(value, *digit);
        next = after(next);
    }
    Number { value, next }
}

// The place after the next such byte, or the end of the text.
pub fn past(text: &[u8], from: usize, stop: u8) -> usize {
    match rest(text, from).iter().position(|b| *b == stop) {
        Some(before) => after(from.saturating_add(before)),
        None => from.max(text.len()),
    }
}
