// Tables, and their payloads: leaf by leaf in storage order.
use crate::brackets::Bracket;
use crate::numbers::times;
use crate::page::Page;
use crate::schema::{Leaf, Schema};
use crate::{schema, token, vectors};

// The most bytes of a payload.
pub const MOST: u32 = 400;

// Writes a leaf's value.
fn value(page: &mut Page<'_>, leaf: Leaf) {
    if leaf.mark == b'S' {
        token::characters(page, leaf.bytes);
    } else {
        token::payload(page, leaf.mark);
    }
}

// Writes the records of a table by rows.
fn rows(page: &mut Page<'_>, leaves: &[Leaf], records: u32) {
    for _ in 0..records {
        for leaf in leaves {
            value(page, *leaf);
        }
    }
}

// Writes the column of a field: its leaves for each record.
fn column(page: &mut Page<'_>, leaves: &[Leaf], field: u32, records: u32) {
    for _ in 0..records {
        for leaf in leaves.iter().filter(|leaf| leaf.field == field) {
            value(page, *leaf);
        }
    }
}

// Writes a column for each field, of which the first has the number 1.
fn columns(page: &mut Page<'_>, schema: &Schema, records: u32) {
    for field in 0..schema.fields {
        column(page, schema.leaves(), field + 1, records);
    }
}

// Writes the payload of so many records, where there is one and it is not too long.
fn payload(page: &mut Page<'_>, schema: &Schema, form: Bracket, records: u32) {
    match times(records, schema.bytes) {
        1..=MOST => match form {
            Bracket::Square => rows(page, schema.leaves(), records),
            Bracket::Brace => columns(page, schema, records),
        },
        _ => (),
    }
}

// The most records: few if they are wide, many if they have no bytes.
fn most(bytes: u32) -> u32 {
    match 100u32.checked_div(bytes) {
        Some(records) => records + 1,
        None => 1_000_000,
    }
}

// Draws how deep the schema goes: one level most often; as a fault beyond eight.
fn depth(page: &mut Page<'_>) -> u32 {
    if page.draw(10) == 0 {
        return 1 + page.draw(8);
    }
    if page.slip(8) {
        return 8 + page.draw(4);
    }
    0
}

// Writes a table: with square brackets by rows, with braces by columns.
pub fn table(page: &mut Page<'_>) {
    let form = Bracket::of(page.draw(2));
    page.put(form.opening());
    page.put(b'$');
    let depth = depth(page);
    let fields = 1 + page.draw(4);
    let schema = schema::put_schema(page, depth, fields);
    page.put(b'#');
    let records = vectors::count(page, most(schema.bytes), false);
    payload(page, &schema, form, records);
}
