// Tokens that hold no others, and what may stand before them.
use crate::integers::integer;
use crate::numbers::low;
use crate::page::Page;

// Writes no `N`, or a few.
pub fn noops(page: &mut Page<'_>) {
    match page.draw(24) {
        0 => page.put_all(b"NN"),
        1 | 2 => page.put(b'N'),
        _ => (),
    }
}

// Writes what a mark's bytes hold: a char below 128, a boolean's letter, or any number; as a fault another byte for the first two.
pub fn payload(page: &mut Page<'_>, mark: u8) {
    let slip = page.slip(24);
    let drawn = low(page.draw(128));
    match mark {
        b'C' => page.put(if slip { drawn | 0x80 } else { drawn }),
        b'T' if slip => page.put(b't'),
        b'T' => page.put(if drawn % 2 == 0 { b'T' } else { b'F' }),
        _ => page.put_bits(mark),
    }
}

// Writes a scalar.
pub fn scalar(page: &mut Page<'_>) {
    let mark = page.pick(b"ZTFiUIulmLMhdDCB");
    page.put(mark);
    match mark {
        b'Z' | b'T' | b'F' => (),
        _ => payload(page, mark),
    }
}

// Draws the lead byte of a character that has so many bytes beyond it; as a fault a byte that is none.
fn lead(page: &mut Page<'_>, beyond: u32) -> u8 {
    let slip = page.slip(40);
    let choice = low(page.draw(128));
    if slip {
        return if choice < 64 {
            0x80 | choice
        } else {
            0xF8 | choice % 8
        };
    }
    match beyond {
        0 => choice,
        1 => 0xC0 | choice % 32,
        2 => 0xE0 | choice % 16,
        _ => 0xF0 | choice % 8,
    }
}

// Draws a byte that follows in a character; as a fault one that can't.
fn following(page: &mut Page<'_>) -> u8 {
    let slip = page.slip(40);
    let choice = low(page.draw(64));
    if !slip {
        return 0x80 | choice;
    }
    if choice < 32 { choice } else { 0xC0 | choice }
}

// Writes a character: a lead byte, and so many beyond it.
fn character(page: &mut Page<'_>, beyond: u32) {
    let first = lead(page, beyond);
    page.put(first);
    for _ in 0..beyond {
        let b = following(page);
        page.put(b);
    }
}

// Writes characters of so many bytes in all. Each has as many as are drawn for it, so that no range counts them and the loop tests
// what is left.
pub fn characters(page: &mut Page<'_>, bytes: u32) {
    let mut left = bytes;
    while 0 < left {
        let drawn = page.draw(8);
        let beyond = if drawn < 4 && drawn < left { drawn } else { 0 };
        character(page, beyond);
        left -= 1 + beyond;
    }
}

// Writes a type: `$`, its mark, `#`.
pub fn type_header(page: &mut Page<'_>, mark: u8) {
    page.put_all(&[b'$', mark, b'#']);
}

// Writes so many bytes below 128, or, as a fault, now and then another.
fn letters(page: &mut Page<'_>, bytes: u32) {
    for _ in 0..bytes {
        let slip = page.slip(100);
        let drawn = low(page.draw(128));
        page.put(if slip { drawn | 0x80 } else { drawn });
    }
}

// Writes the length of a text and the text, in half of them of bytes below 128 alone.
fn sized(page: &mut Page<'_>, bytes: u32) {
    integer(page, bytes);
    if page.draw(2) == 0 {
        letters(page, bytes);
    } else {
        characters(page, bytes);
    }
}

// Draws how many bytes a text has: few; about 16 or about 32, which are tested at a time; or now and then more than a byte can say.
fn text_bytes(page: &mut Page<'_>) -> u32 {
    match page.draw(64) {
        0 => page.draw(400),
        1..=4 => 12 + page.draw(9),
        5..=8 => 28 + page.draw(9),
        _ => page.draw(9),
    }
}

// Writes a text.
pub fn text(page: &mut Page<'_>) {
    let bytes = text_bytes(page);
    page.put(b'S');
    sized(page, bytes);
}

// Writes a key: of few letters, so that keys repeat, none, or as many as a text.
pub fn key(page: &mut Page<'_>) {
    match page.draw(8) {
        0 => sized(page, 0),
        1 => {
            let bytes = text_bytes(page);
            sized(page, bytes);
        }
        _ => {
            integer(page, 1);
            let name = page.pick(b"abc");
            page.put(name);
        }
    }
}
