// Values.
use crate::brackets::Bracket;
use crate::extensions::extension;
use crate::integers::integer;
use crate::nest::{Nest, Open};
use crate::numbers::{small, times};
use crate::numerals::numeral;
use crate::page::Page;
use crate::{tables, token, vectors};
use format::marks::Mark;

// The most levels, unless faults are written.
const LEVELS: usize = 32;

// Where a message is long enough: from there on it has scalars, texts, numbers and extensions alone.
const LONG: usize = 300;

// The steps in which a message is written.
const STEPS: u32 = 400;

// Writes elements of a mark.
pub fn elements(page: &mut Page<'_>, mark: u8, count: u32) {
    for _ in 0..count {
        token::payload(page, mark);
    }
}

// Draws a type; as a fault the mark of an extension, which is none.
fn type_mark(page: &mut Page<'_>) -> u8 {
    let slip = page.slip(60);
    let mark = page.pick(b"iUIulmLMhdDCBCCU");
    if slip { b'E' } else { mark }
}

// Writes a packed array: of few elements, or of more than a byte can say. Its payload isn't written where it would be too long.
fn packed(page: &mut Page<'_>) {
    let mark = type_mark(page);
    page.put(b'[');
    token::type_header(page, mark);
    let most = if page.draw(24) == 0 { 300 } else { 20 };
    let count = vectors::count(page, most, true);
    if times(count, small(Mark(mark).width())) <= tables::MOST {
        elements(page, mark, count);
    }
}

// Writes a typed object: keys, each with a value of a mark.
fn typed_object(page: &mut Page<'_>) {
    let mark = type_mark(page);
    page.put(b'{');
    token::type_header(page, mark);
    let count = page.draw(5);
    integer(page, count);
    for _ in 0..count {
        token::key(page);
        token::payload(page, mark);
    }
}

// Draws how many members an array or an object has: few, or now and then many; one at least if more are to be opened.
fn members(page: &mut Page<'_>, wanted: bool) -> u32 {
    if wanted {
        return 1 + page.draw(2);
    }
    let most = if page.draw(16) == 0 { 40 } else { 5 };
    page.draw(most)
}

// Draws an array or an object, with a closing mark or with a count: if more are to be opened, most often an array, which needs fewer
// rows.
fn container(page: &mut Page<'_>, wanted: bool) -> Open {
    let choice = page.draw(8);
    let (bracket, counted) = if wanted && 2 <= choice {
        (Bracket::Square, choice % 2 == 1)
    } else {
        (Bracket::of(choice), 2 <= choice % 4)
    };
    let left = members(page, wanted);
    Open {
        bracket,
        counted,
        left,
    }
}

// Opens an array or an object, with its count if it has one.
fn open(page: &mut Page<'_>, nest: &mut Nest) {
    let opened = container(page, nest.is_wanted());
    nest.push(opened);
    page.put(opened.bracket.opening());
    if opened.counted {
        page.put(b'#');
        integer(page, opened.left);
    }
}

// Writes a value that holds no value with a mark.
fn closed(page: &mut Page<'_>, choice: u32) {
    match choice {
        0..=3 => token::scalar(page),
        4 | 5 => token::text(page),
        6 => numeral(page),
        7 | 8 => extension(page),
        9 => typed_object(page),
        10..=12 => packed(page),
        _ => tables::table(page),
    }
}

// Writes a value: an array or an object while some are to be opened, or now and then.
fn value(page: &mut Page<'_>, nest: &mut Nest) {
    let drawn = page.draw(22);
    if nest.is_wanted() {
        open(page, nest);
    } else if LONG < page.len() || LEVELS <= nest.depth() {
        closed(page, drawn % 9);
    } else if 16 < drawn {
        open(page, nest);
    } else {
        closed(page, drawn);
    }
}

// Writes the end of the innermost array or object: a closing mark, if it has no count.
fn end(page: &mut Page<'_>, nest: &mut Nest, ended: Open) {
    nest.pop();
    if !ended.counted {
        token::noops(page);
        page.put(ended.bracket.closing());
    }
}

// Writes a member of the innermost array or object, or its end.
fn step(page: &mut Page<'_>, nest: &mut Nest) {
    let innermost = nest.innermost();
    if innermost.left == 0 {
        return end(page, nest, innermost);
    }
    nest.take_member();
    token::noops(page);
    if innermost.bracket == Bracket::Brace {
        token::key(page);
        token::noops(page);
    }
    value(page, nest);
}

// Writes the message's value, and all that is in it; its first values go so deep.
pub fn whole(page: &mut Page<'_>, depth: u32) {
    let mut nest = Nest::new(depth);
    token::noops(page);
    value(page, &mut nest);
    for _ in 0..STEPS {
        if nest.depth() == 0 {
            break;
        }
        step(page, &mut nest);
    }
    token::noops(page);
}
