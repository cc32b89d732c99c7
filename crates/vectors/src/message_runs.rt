// The lines of the input: the edition's letter, the rows lent, and a message.
ghost use Rattle.std.specs.Prelude.{◌<◌, length};

use crate::show;
use format::answers::Edition;
use lines::text::Text;
use memory::filled;
use rows::ROW_WORDS;
use std::io;

// The most rows that are lent, and their words.
const ROWS: usize = 4200;

const WORDS: usize = ROWS * ROW_WORDS;

// One message, with so many rows lent, none of whose words is zero.
fn run(rt: &impl Print, edition: Edition, message: &[u8], lent: usize) -> io::Result<()> {
    let mut rows = filled::<u32, WORDS>(0xAAAA_AAAA);
    let n = lent.min(ROWS) * ROW_WORDS;
    show::line(rt, edition, message, &mut rows[..n])
}

// One line.
fn one(rt: &impl Print, text: &mut Text<'_>, message: &mut [u8]) -> io::Result<()>
    ensures { 0 < length text.old.rest.now → length text.new.rest.now < length text.old.rest.now }
{
    let edition = text.edition();
    text.skip();
    let lent = text.decimal();
    let n = text.stored(message).min(message.len());
    text.skip();
    run(rt, edition, &message[..n], lent)
}

// Every line.
pub fn all(rt: &impl Print, input: &[u8], message: &mut [u8]) -> io::Result<()> {
    let mut text = Text { rest: input };
    // No `for`: where the next line begins is known only once this one is read.
    while !text.rest.is_empty() {
        one(rt, &mut text, message)?;
    }
    Ok(())
}
