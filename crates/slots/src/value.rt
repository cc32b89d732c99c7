// The value in a slot.
ghost use Rattle.std.specs.Prelude.{◌≡◌};
ghost use Rattle.format.specs.Values.{value_in_packed, value_in_table};
ghost use Rattle.format.specs.Answers.{valued};
ghost use Rattle.values.specs.Answers.{NansApart};

use addresses::slots::{packed, table};
use format::answers::{Kind, Token};
use format::refusals::Refusal;
use values::scalars::scalar_at;

// The value in the slot of a packed row and indexes.
pub fn value_in_packed(
    message: &[u8],
    rows: &[u32],
    row: usize,
    indexes: &[usize],
) -> Result<Token, Refusal>
    ensures is { valued result ≡ value_in_packed message.now rows.now row indexes.now }
    ensures apart { NansApart result }
{
    let slot = packed(rows, message.len(), row, indexes)?;
    scalar_at(
        message,
        Kind::Packed,
        slot.mark,
        slot.span.first,
        slot.span.width,
    )
}

// The value in the slot of a table row, a leaf row and indexes.
pub fn value_in_table(
    message: &[u8],
    rows: &[u32],
    row: usize,
    leaf: usize,
    indexes: &[usize],
) -> Result<Token, Refusal>
    ensures is { valued result ≡ value_in_table message.now rows.now row leaf indexes.now }
    ensures apart { NansApart result }
{
    let slot = table(rows, message.len(), row, leaf, indexes)?;
    scalar_at(
        message,
        Kind::Leaf,
        slot.mark,
        slot.span.first,
        slot.span.width,
    )
}
