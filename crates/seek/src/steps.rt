// What a walk comes to, and its step over a container under a type: a table, which counts, or another, which holds none.
ghost use Rattle.std.specs.Prelude.{◌≡◌, ◌+◌, ◌<◌, length};
ghost use Rattle.format.specs.Marks.{opening_of};
ghost use Rattle.format.specs.Containers.{typed as typed_there};
ghost use Rattle.tokens.specs.Answers.{Here};
ghost use Rattle.seek.specs.Walks.{Walks, PastWithin};
ghost use Rattle.seek.specs.declared.steps.Stop.TheVariants.{Unread};

use format::refusals::Refused;
use rows::OUTERMOST;
use typed::container::typed;
use typed::table::table;
use typed::types::{ContainerType, type_at};

// What was passed: the place and the row after it, and how many tables are still to be passed.
#[derive(Clone, Copy)]
pub struct Past {
    pub at: usize,
    pub row: usize,
    pub left: usize,
}

// A table: its first byte, what it opens with, and its row.
#[derive(Clone, Copy)]
pub struct Table {
    pub first: usize,
    pub brace: bool,
    pub row: usize,
}

// Why a walk stops: what stands there can't be read; or it is the table sought.
#[derive(Clone, Copy)]
pub enum Stop {
    Unread,
    Found(Table),
}

// What the reader refuses stops a walk.
impl From<Refused> for Stop {
    ghost from_gives = { λ _ s. s ≡ Unread };

    fn from(_refused: Refused) -> Stop {
        Stop::Unread
    }
}

// The container at `at`, whose opening mark is followed by `$`, with `left` tables to pass.
pub fn typed_at(
    message: &[u8],
    brace: bool,
    at: usize,
    row: usize,
    left: usize,
) -> Result<Past, Stop>
    requires { Here message.now (length message.now) at row × (at + 1 < length message.now) }
    ensures meets { Walks result message.now row left (typed_there message.now (length message.now) (opening_of brace) at row) }
    ensures bounds { PastWithin result (at + 1) (length message.now) }
{
    let lent = message.len();
    let mut none = [0u32; 0];
    match type_at(message, at)? {
        ContainerType::Schema => {
            if left == 0 {
                return Err(Stop::Found(Table {
                    first: at,
                    brace,
                    row,
                }));
            }
            let end = table(message, &mut none, lent, brace, at, row, OUTERMOST)?;
            Ok(Past {
                at: end.at,
                row: end.row,
                left: left - 1,
            })
        }
        ContainerType::Of(_) => {
            let end = typed(message, &mut none, lent, brace, at, row, OUTERMOST)?;
            Ok(Past {
                at: end.at,
                row: end.row,
                left,
            })
        }
    }
}
