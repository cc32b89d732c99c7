// The lines of the input: the edition's letter, the rows lent, the bytes of output lent, and a message.
ghost use Rattle.std.specs.Prelude.{◌≤◌, ◌<◌, length};

use crate::show;
use format::answers::Edition;
use lines::text::Text;
use memory::filled;
use rows::ROW_WORDS;
use std::io;

// The most rows that are lent, and their words with the longest remainder.
const ROWS: usize = 4200;

const WORDS: usize = ROWS * ROW_WORDS + 9;

// The words of so many rows, or of all the buffer's, and a remainder that changes with the rows.
fn words_of(rows: usize) -> usize
    ensures { result ≤ 42009 }
{
    if rows < ROWS {
        return rows * ROW_WORDS + rows % ROW_WORDS;
    }
    WORDS
}

// One message, with so many rows lent.
fn run(
    rt: &impl Print,
    edition: Edition,
    message: &[u8],
    lent: usize,
    output: &mut [u8],
) -> io::Result<()> {
    let mut rows = filled::<u32, WORDS>(0);
    let mut read = filled::<u32, WORDS>(0);
    let n = words_of(lent);
    show::line(rt, edition, message, &mut rows[..n], &mut read[..n], output)
}

// One line.
fn one(
    rt: &impl Print,
    text: &mut Text<'_>,
    message: &mut [u8],
    output: &mut [u8],
) -> io::Result<()>
    ensures { 0 < length text.old.rest.now → length text.new.rest.now < length text.old.rest.now }
{
    let edition = text.edition();
    text.skip();
    let lent = text.decimal();
    text.skip();
    let room = text.decimal().min(output.len());
    let n = text.stored(message).min(message.len());
    text.skip();
    run(rt, edition, &message[..n], lent, &mut output[..room])
}

// Every line.
pub fn all(rt: &impl Print, input: &[u8], message: &mut [u8], output: &mut [u8]) -> io::Result<()> {
    let mut text = Text { rest: input };
    // No `for`: where the next line begins is known only once this one is read.
    while !text.rest.is_empty() {
        one(rt, &mut text, message, output)?;
    }
    Ok(())
}
