// High-precision numbers: forms in which `n` stands for a digit from 1 to 9, and `d` for any.
use crate::integers::integer;
use crate::numbers::{low, small};
use crate::page::Page;

// Forms of JSON numbers.
const RIGHT: [&[u8]; 12] = [
    b"0",
    b"-0",
    b"n",
    b"-ndd",
    b"0.d",
    b"nd.ddd",
    b"ne0",
    b"0E+dd",
    b"-nde-d",
    b"-0.0e+0n",
    b"nd.dEddd",
    b"n.d",
];

// Forms of what is nearly a JSON number.
const WRONG: [&[u8]; 14] = [
    b"",
    b"-",
    b"0d",
    b"-0n",
    b"n.",
    b".d",
    b"ne",
    b"nE+",
    b"n.e1",
    b"+n",
    b"n.dd.d",
    b"-n.dd+Edd",
    b"ne1.0",
    b"nx",
];

// Draws the byte that a letter of a form stands for.
fn digit(page: &mut Page<'_>, letter: u8) -> u8 {
    let choice = page.draw(90);
    match letter {
        b'n' => b'1' + low(choice % 9),
        b'd' => b'0' + low(choice % 10),
        _ => letter,
    }
}

// Writes a high-precision number; as a fault what is nearly one.
pub fn numeral(page: &mut Page<'_>) {
    let slip = page.slip(6);
    page.put(b'H');
    let form = if slip {
        WRONG[page.draw(14) as usize]
    } else {
        RIGHT[page.draw(12) as usize]
    };
    integer(page, small(form.len()));
    for letter in form {
        let b = digit(page, *letter);
        page.put(b);
    }
}
