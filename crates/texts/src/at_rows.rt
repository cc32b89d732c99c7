// Text at a row.
ghost use Rattle.std.specs.Prelude.{◌≡◌, length};
ghost use Rattle.format.specs.TextAnswers.{is_text_row, text_at_row, part};
ghost use Rattle.format.specs.Answers.{located, first_and_width};
ghost use Rattle.rows.specs.Row.{row_of};
ghost use Rattle.texts.specs.Memory.{Inside, pointer};

use crate::parts::part_at;
use format::answers::{Kind, Span};
use format::marks::Mark;
use format::refusals::Refusal;
use rows::{Row, count, load};
use scan::bytes::within;

// Whether a row is of kind 2 with `S`, 3 with `H`, or 4 with `S`.
fn is_text_row(r: Row) -> bool
    ensures { result ≡ is_text_row (row_of r) }
{
    let Ok(kind) = Kind::try_from(r.kind) else {
        return false;
    };
    match kind {
        Kind::Text => r.mark == Mark::TEXT as u32,
        Kind::HighPrecision => r.mark == Mark::HIGH_PRECISION as u32,
        Kind::Key => r.mark == Mark::TEXT as u32,
        _ => false,
    }
}

// The first byte and the width of the text at a row of kinds 2 to 4, in any words; or 12.
pub fn number_at_row(message: &[u8], rows: &[u32], row: usize) -> Result<Span, Refusal>
    ensures is { located result ≡ first_and_width (text_at_row message.now rows.now row) }
    ensures bounds { Inside result (length message.now) }
{
    if count(rows) <= row {
        return Err(Refusal::RowsDontFit);
    }
    let r = load(rows, row);
    if !is_text_row(r) {
        return Err(Refusal::RowsDontFit);
    }
    let first = r.payload as usize;
    let width = r.extent as usize;
    if !within(message, first, width) {
        return Err(Refusal::RowsDontFit);
    }
    Ok(Span { first, width })
}

// The text at a row of kinds 2 to 4, in any words: the part of the message itself, empty on refusal.
pub fn text_at_row<'a>(message: &'a [u8], rows: &[u32], row: usize) -> &'a [u8]
    ensures is { result.now ≡ part message.now (text_at_row message.now rows.now row) }
    ensures here { result.ref_ptr ≡ pointer message.entry.ref_ptr (text_at_row message.now rows.now row) }
{
    part_at(message, number_at_row(message, rows, row))
}
