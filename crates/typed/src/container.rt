// A typed container: a table, a packed array or a typed object.
ghost use Rattle.std.specs.Prelude.{length, ◌+◌, ◌≤◌, ◌<◌};
ghost use Rattle.format.specs.Marks.{opening_of};
ghost use Rattle.format.specs.Containers.{typed as typed_there};
ghost use Rattle.rows.specs.Row.{ancestry_of};
ghost use Rattle.tokens.specs.Answers.{Meets, Here, Within};

use crate::packed::packed;
use crate::table::table;
use crate::types::{ContainerType, type_at};
use containers::pairs::typed_object;
use format::refusals::Refused;
use rows::Ancestry;
use tokens::End;

// The container at `at`, whose opening mark is followed by `$`.
pub fn typed(
    message: &[u8],
    rows: &mut [u32],
    lent: usize,
    brace: bool,
    at: usize,
    row: usize,
    ancestry: Ancestry,
) -> Result<End, Refused>
    requires { Here message.now lent at row × (at + 1 < length message.now) × (row < lent) × (ancestry.depth ≤ at) }
    ensures meets { Meets result (typed_there message.now lent (opening_of brace) at row) row 1 (ancestry_of ancestry) rows.old rows.new }
    ensures bounds { Within result (at + 1) (length message.now) lent }
{
    let kind = type_at(message, at)?;
    match kind {
        ContainerType::Schema => table(message, rows, lent, brace, at, row, ancestry),
        ContainerType::Of(mark) => {
            let from = at + 4;
            if brace {
                typed_object(message, rows, lent, mark, from, at, row, ancestry)
            } else {
                packed(message, rows, lent, mark, from, at, row, ancestry)
            }
        }
    }
}
