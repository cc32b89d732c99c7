// The address calls: a slot's first byte and width, or the refusal. `size` is the message's length.
ghost use Rattle.std.specs.Prelude.{◌≡◌};
ghost use Rattle.format.specs.Addresses.{packed_slot, table_slot};
ghost use Rattle.format.specs.Answers.{located, first_and_width};

use crate::slots::{packed, table};
use format::answers::Span;
use format::refusals::Refusal;

// The slot of a packed row and indexes.
#[tactic(auto, unfolding(format::specs::Answers::first_and_width))]
pub fn packed_slot(rows: &[u32], size: u32, row: usize, indexes: &[usize]) -> Result<Span, Refusal>
    ensures { located result ≡ first_and_width (packed_slot rows.now size row indexes.now) }
{
    Ok(packed(rows, size as usize, row, indexes)?.span)
}

// The slot of a table row, a leaf row and indexes.
#[tactic(auto, unfolding(format::specs::Answers::first_and_width))]
pub fn table_slot(
    rows: &[u32],
    size: u32,
    row: usize,
    leaf: usize,
    indexes: &[usize],
) -> Result<Span, Refusal>
    ensures { located result ≡ first_and_width (table_slot rows.now size row leaf indexes.now) }
{
    Ok(table(rows, size as usize, row, leaf, indexes)?.span)
}
