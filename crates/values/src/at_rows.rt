// The value at a row.
ghost use Rattle.std.specs.Prelude.{◌≡◌};
ghost use Rattle.format.specs.Values.{value_at_row};
ghost use Rattle.format.specs.Answers.{valued};
ghost use Rattle.values.specs.Answers.{NansApart};

use crate::scalars::scalar_at;
use format::answers::{Kind, Token};
use format::refusals::Refusal;
use rows::{count, load};

// The value at a row of kind 1, in any words; or 12.
pub fn value_at_row(message: &[u8], rows: &[u32], row: usize) -> Result<Token, Refusal>
    ensures is { valued result ≡ value_at_row message.now rows.now row }
    ensures apart { NansApart result }
{
    if count(rows) <= row {
        return Err(Refusal::RowsDontFit);
    }
    let r = load(rows, row);
    if r.kind != Kind::Scalar.number() {
        return Err(Refusal::RowsDontFit);
    }
    let first = r.payload as usize;
    let wide = r.extent as usize;
    scalar_at(message, Kind::Scalar, r.mark, first, wide)
}
