// A whole message: one value, with any number of `N` before and after.
ghost use Rattle.std.specs.Prelude.{◌≡◌, length};
ghost use Rattle.format.specs.Rows.{zeros};
ghost use Rattle.format.specs.Read.{read as read_of, read_whole, read_into, rows_used, words_after};
ghost use Rattle.format.specs.Answers.{answered, refused, grammar_of};
ghost use Rattle.reader.specs.Message.{WholeMeets, WholeWithin, front_words};

use format::answers::Edition;
use format::limits::{LIMIT, VALUE_LEVELS};
use format::refusals::{Refusal, Refused};
use nesting::values::member;
use rows::{OUTERMOST, ROW_WORDS, clear, clear_from, count};
use scan::noops::skip;

// The rows of the message, with so many lent, of which those are stored that the table has. It is lent on as a part of its own, so that
// its pointer and length aren't loaded as one right after they were stored as two.
fn read_core(
    edition: Edition,
    message: &[u8],
    rows: &mut [u32],
    lent: usize,
) -> Result<usize, Refused>
    ensures meets { WholeMeets result (read_of message.now lent (grammar_of edition)) rows.old rows.new }
    ensures bounds { WholeWithin result lent }
{
    let end = message.len();
    if (LIMIT as usize) < end {
        return Err(Refused(Refusal::MessageTooLong, 0));
    }
    let at = skip(message, 0);
    let value = member(
        edition,
        &message[..end],
        rows,
        lent,
        VALUE_LEVELS,
        false,
        at,
        0,
        OUTERMOST,
    )?;
    let after = skip(message, value.at);
    if after < end {
        return Err(Refused(Refusal::BytesAfter, after));
    }
    Ok(value.row)
}

// A refusal: every lent word is zero.
fn refused(words: &mut [u32], why: Refused) -> Result<usize, Refused>
    ensures answer { answered result ≡ refused why }
    ensures words { words.new ≡ zeros (length words.old) }
{
    clear(words);
    Err(why)
}

// Reads a message into lent rows: the rows used, or a refusal and its place. What isn't filled is zero, on refusal all.
pub fn read(edition: Edition, message: &[u8], rows: &mut [u32]) -> Result<usize, Refused>
    ensures answer { answered result ≡ rows_used (read_into message.now rows.old (grammar_of edition)) }
    ensures words { rows.new ≡ words_after (length rows.old) (read_into message.now rows.old (grammar_of edition)) }
{
    let lent = count(rows);
    match read_core(edition, message, rows, lent) {
        Ok(used) => {
            clear_from(rows, used * ROW_WORDS);
            Ok(used)
        }
        Err(why) => refused(rows, why),
    }
}

// The rows that a message needs, or a refusal and its place, with no table: rows count as enough.
pub fn rows_needed(edition: Edition, message: &[u8]) -> Result<usize, Refused>
    ensures { answered result ≡ rows_used (read_whole message.now (grammar_of edition)) }
{
    let mut none = [0u32; 0];
    read_core(edition, message, &mut none, message.len())
}

// The rows that a message needs, or a refusal and its place; the table holds the first of them, as many as it has room for. What isn't
// filled is zero, on refusal all.
pub fn read_front(edition: Edition, message: &[u8], rows: &mut [u32]) -> Result<usize, Refused>
    ensures answer { answered result ≡ rows_used (read_whole message.now (grammar_of edition)) }
    ensures words { rows.new ≡ front_words (length rows.old) (read_whole message.now (grammar_of edition)) }
{
    clear(rows);
    match read_core(edition, message, rows, message.len()) {
        Ok(needed) => Ok(needed),
        Err(why) => refused(rows, why),
    }
}
