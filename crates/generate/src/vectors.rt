// Counts and dimension vectors.
use crate::integers::{MARKS, integer};
use crate::numbers::times;
use crate::page::Page;
use crate::token;
use format::marks::Mark;

// The forms of a vector: with a closing bracket, with a count, or with a type and a count.
#[derive(Clone, Copy)]
enum Form {
    Listed,
    Counted,
    Typed,
}

// Draws the form of a vector, or none, for a count alone.
fn drawn_form(page: &mut Page<'_>) -> Option<Form> {
    match page.draw(5) {
        0 | 1 => None,
        2 => Some(Form::Listed),
        3 => Some(Form::Counted),
        _ => Some(Form::Typed),
    }
}

// Draws how many dimensions: few, or up to eight; as a fault none, or nine.
fn dimensions(page: &mut Page<'_>) -> u32 {
    let slip = page.slip(10);
    let drawn = page.draw(6);
    if slip {
        return if drawn < 3 { 0 } else { 9 };
    }
    1 + page.draw(if drawn == 0 { 8 } else { 3 })
}

// A large dimension.
fn large(choice: u32) -> u32 {
    match choice {
        0 | 1 => 1_048_576,
        2 => 1024,
        3 => 65_536,
        4 => 2048,
        _ => 120,
    }
}

// Draws a dimension: small enough that the product stays so, or 0; large where it may be, and now and then after a large one or as
// a fault.
fn dimension(page: &mut Page<'_>, product: u32, most: u32, may: bool) -> u32 {
    let slip = page.slip(12);
    let choice = page.draw(12);
    if may || slip || (1000 < product && choice < 4) {
        return large(choice);
    }
    if choice == 0 {
        return 0;
    }
    let few = 1 + choice % 3;
    if times(product, few) <= most { few } else { 1 }
}

// Writes a dimension, a bare one if there is a mark for it; gives the number, which is made less where a mark of few bytes can't hold
// it.
fn one(page: &mut Page<'_>, mark: Option<u8>, number: u32) -> u32 {
    let Some(bare) = mark else {
        integer(page, number);
        return number;
    };
    let held = if Mark(bare).width() < 4 {
        number.min(120)
    } else {
        number
    };
    page.put_number(bare, u64::from(held));
    held
}

// Writes dimensions, bare ones if there is a mark for them; gives their product. Now and then the last is 0, and those before it may
// be large.
fn listed(page: &mut Page<'_>, many: u32, mark: Option<u8>, most: u32) -> u32 {
    let zero = page.draw(6) == 0;
    let mut product = 1;
    for i in 0..many {
        let drawn = dimension(page, product, most, zero);
        let last = i + 1 == many;
        let number = one(page, mark, if zero && last { 0 } else { drawn });
        product = times(product, number);
    }
    product
}

// Writes a vector of a form after its `[`; gives the product.
fn vector(page: &mut Page<'_>, form: Form, most: u32) -> u32 {
    let many = dimensions(page);
    match form {
        Form::Listed => {
            let product = listed(page, many, None, most);
            page.put(b']');
            product
        }
        Form::Counted => {
            page.put(b'#');
            integer(page, many);
            listed(page, many, None, most)
        }
        Form::Typed => {
            let mark = page.pick(MARKS);
            token::type_header(page, mark);
            integer(page, many);
            listed(page, many, Some(mark), most)
        }
    }
}

// Writes a count alone; gives it.
fn alone(page: &mut Page<'_>, most: u32) -> u32 {
    let slip = page.slip(10);
    let drawn = page.draw(most.saturating_add(1));
    let count = if slip { large(drawn % 6) } else { drawn };
    integer(page, count);
    count
}

// Writes what follows `#`: a count of elements, at most so many, or their dimensions, wrapped now and then if they may be; gives the
// product.
pub fn count(page: &mut Page<'_>, most: u32, wraps: bool) -> u32 {
    let Some(form) = drawn_form(page) else {
        return alone(page, most);
    };
    let wrapped = page.draw(2) == 0 && wraps;
    page.put(b'[');
    if wrapped {
        page.put(b'[');
    }
    let product = vector(page, form, most);
    if wrapped {
        page.put(b']');
    }
    product
}
