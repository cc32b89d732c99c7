// The text in an `S` slot.
ghost use Rattle.std.specs.Prelude.{◌≡◌, length};
ghost use Rattle.format.specs.TextAnswers.{text_in_table, part};
ghost use Rattle.format.specs.Answers.{located, first_and_width};
ghost use Rattle.texts.specs.Memory.{Inside, pointer};

use addresses::slots::table;
use format::answers::Span;
use format::marks::Mark;
use format::refusals::Refusal;
use texts::parts::part_at;

// The first byte and the width of the text in the slot of a table row, a leaf row and indexes; or a refusal.
pub fn number_in_table(
    message: &[u8],
    rows: &[u32],
    row: usize,
    leaf: usize,
    indexes: &[usize],
) -> Result<Span, Refusal>
    ensures is { located result ≡ first_and_width (text_in_table message.now rows.now row leaf indexes.now) }
    ensures bounds { Inside result (length message.now) }
{
    let slot = table(rows, message.len(), row, leaf, indexes)?;
    if slot.mark != Mark::TEXT as u32 {
        return Err(Refusal::RowsDontFit);
    }
    Ok(slot.span)
}

// That text: the part of the message itself, empty on refusal.
pub fn text_in_table<'a>(
    message: &'a [u8],
    rows: &[u32],
    row: usize,
    leaf: usize,
    indexes: &[usize],
) -> &'a [u8]
    ensures is { result.now ≡ part message.now (text_in_table message.now rows.now row leaf indexes.now) }
    ensures here { result.ref_ptr ≡ pointer message.entry.ref_ptr (text_in_table message.now rows.now row leaf indexes.now) }
{
    part_at(message, number_in_table(message, rows, row, leaf, indexes))
}
