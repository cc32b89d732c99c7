// Edits of a message: what a fault of a sender, or a lie, would make of it.
use crate::numbers::low;
use crate::page::Page;
use format::marks::Mark;

// Draws a mark.
fn mark(page: &mut Page<'_>) -> u8 {
    page.pick(b"[]{}$#ZTFiUIulmLMhdDCBSHNE")
}

// Draws a byte: a mark most often, else any.
fn any(page: &mut Page<'_>) -> u8 {
    if page.draw(3) == 0 {
        low(page.draw(256))
    } else {
        mark(page)
    }
}

// Cuts the message off.
fn cut(page: &mut Page<'_>) {
    let there = page.place();
    page.truncate(there);
}

// Puts another byte in place of one.
fn replace(page: &mut Page<'_>) {
    let there = page.place();
    let drawn = any(page);
    if let Some(b) = page.from(there).first_mut() {
        *b = drawn;
    }
}

// Flips a bit.
fn flip(page: &mut Page<'_>) {
    let there = page.place();
    let bit = 1u8 << page.draw(8);
    if let Some(b) = page.from(there).first_mut() {
        *b ^= bit;
    }
}

// Puts a byte in: those from its place on move one place up; the last goes where there is room for it.
fn insert(page: &mut Page<'_>) {
    let there = page.place();
    let mut carried = any(page);
    for b in page.from(there) {
        std::mem::swap(b, &mut carried);
    }
    page.put(carried);
}

// Takes a byte out: those after it move one place down.
fn delete(page: &mut Page<'_>) {
    let there = page.place();
    let moved = page.from(there);
    if !moved.is_empty() {
        moved.copy_within(1.., 0);
    }
    let left = page.len().saturating_sub(1);
    page.truncate(left);
}

// Swaps two bytes.
fn swap(page: &mut Page<'_>) {
    let a = page.place();
    let b = page.place();
    let written = page.from(0);
    if a < written.len() && b < written.len() {
        written.swap(a, b);
    }
}

// Lies about a number: the byte after the mark of an integer is made other by little.
fn lie(page: &mut Page<'_>) {
    let there = page.place();
    let by = low(page.draw(4));
    let mut bytes = page.from(there).iter_mut();
    if bytes.any(|b| Mark(*b).is_integer()) {
        if let Some(number) = bytes.next() {
            *number = number.wrapping_add(254).wrapping_add(by);
        }
    }
}

// Writes a few marks after the message.
fn append(page: &mut Page<'_>) {
    for _ in 0..2 {
        let b = any(page);
        page.put(b);
    }
}

// Makes one edit.
pub fn edit(page: &mut Page<'_>) {
    match page.draw(8) {
        0 => cut(page),
        1 => replace(page),
        2 => flip(page),
        3 => insert(page),
        4 => delete(page),
        5 => swap(page),
        6 => lie(page),
        _ => append(page),
    }
}

// Writes a message that is marks and small numbers, without any order.
pub fn noise(page: &mut Page<'_>) {
    let length = page.draw(24);
    for _ in 0..length {
        let b = if page.draw(4) == 0 {
            low(page.draw(4))
        } else {
            mark(page)
        };
        page.put(b);
    }
}
