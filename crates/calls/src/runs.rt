// The lines of the input: a call's name, the message, the row words, and the row, leaf, indexes and name that are asked for.
use crate::lists::{NUMBERS, list, row_words};
use crate::names::{Call, named};
use crate::{answers, lists};
use addresses::calls::{packed_slot, table_slot};
use lines::text::Text;
use lookup::lookup;
use memory::filled;
use slots::text::{number_in_table, text_in_table};
use slots::value::{value_in_packed, value_in_table};
use std::io;
use texts::at_rows::{number_at_row, text_at_row};
use values::at_rows::value_at_row;

// The most bytes of a message or a name.
const BYTES: usize = 4096;

// The most words of rows, for 64 of them.
const WORDS: usize = 640;

// What is asked for: a call, its row, its leaf row, its indexes and a name.
#[derive(Clone, Copy)]
struct Asked<'a> {
    call: Option<Call>,
    row: usize,
    leaf: usize,
    indexes: &'a [usize],
    name: &'a [u8],
}

// Calls what is asked for.
fn answer(rt: &impl Print, message: &[u8], rows: &[u32], asked: Asked<'_>) -> io::Result<()> {
    let Asked {
        call,
        row,
        leaf,
        indexes,
        name,
    } = asked;
    let size = lists::word(message.len());
    match call {
        Some(Call::PackedSlot) => answers::located(rt, packed_slot(rows, size, row, indexes)),
        Some(Call::TableSlot) => answers::located(rt, table_slot(rows, size, row, leaf, indexes)),
        Some(Call::ValueAtRow) => answers::valued(rt, value_at_row(message, rows, row)),
        Some(Call::ValueInPacked) => {
            answers::valued(rt, value_in_packed(message, rows, row, indexes))
        }
        Some(Call::ValueInTable) => {
            answers::valued(rt, value_in_table(message, rows, row, leaf, indexes))
        }
        Some(Call::TextAtRow) => {
            let part = text_at_row(message, rows, row);
            answers::text(rt, message, number_at_row(message, rows, row), part)
        }
        Some(Call::TextInTable) => {
            let part = text_in_table(message, rows, row, leaf, indexes);
            let number = number_in_table(message, rows, row, leaf, indexes);
            answers::text(rt, message, number, part)
        }
        Some(Call::Lookup) => answers::found(rt, lookup(message, rows, row, name)),
        None => print!(rt; "no such call"),
    }
}

// The row, the leaf, the indexes and the name at the front of what is left of a line.
fn ask(
    rt: &impl Print,
    mut line: Text<'_>,
    call: Option<Call>,
    message: &[u8],
    rows: &[u32],
) -> io::Result<()> {
    let row = line.decimal();
    line.past(b' ');
    let leaf = line.decimal();
    line.past(b' ');
    let mut indexes = filled::<usize, NUMBERS>(0);
    let n = list(&mut line, &mut indexes);
    line.past(b' ');
    let mut name = filled::<u8, BYTES>(0);
    let k = line.word(&mut name, 0).min(BYTES);
    let asked = Asked {
        call,
        row,
        leaf,
        indexes: &indexes[..n],
        name: &name[..k],
    };
    answer(rt, message, rows, asked)?;
    rt.println("")
}

// One line. One with too few fields reads on in the next.
fn one(rt: &impl Print, mut line: Text<'_>) -> io::Result<()> {
    let call = named(line);
    line.past(b' ');
    let mut message = filled::<u8, BYTES>(0);
    let n = line.word(&mut message, 0).min(BYTES);
    line.past(b' ');
    let mut rows = filled::<u32, WORDS>(0);
    let k = row_words(&mut line, &mut rows);
    line.past(b' ');
    ask(rt, line, call, &message[..n], &rows[..k])
}

// Every line.
pub fn all(rt: &impl Print, input: &[u8]) -> io::Result<()> {
    let mut text = Text { rest: input };
    // No `for`: where the next line begins is known only once this one is read.
    while !text.rest.is_empty() {
        one(rt, text)?;
        text.past(b'\n');
    }
    Ok(())
}
