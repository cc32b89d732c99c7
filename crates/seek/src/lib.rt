// Finds a table of an accepted message by its number, counted in message order, with no row table. One walk over the message, in the
// reader's shape: the reader's leaves read what holds no others, and arrays and objects are walked into without being read before.
#![tactic(auto)]

ghost use Rattle.std.specs.Prelude.{◌≡◌};
ghost use Rattle.format.specs.Outcome.{done};
ghost use Rattle.format.specs.Tokens.{Forest};
ghost use Rattle.format.specs.Grammars.{new};
ghost use Rattle.format.specs.Read.{read_whole};
ghost use Rattle.seek.specs.Tables.{Accepted, TableMeets};

use crate::nest::member;
use crate::steps::{Stop, Table};
use format::limits::{LIMIT, VALUE_LEVELS};
use scan::noops::skip;

mod nest;
pub mod steps;

// The table with this number, from 0, of an accepted message; none where there are not so many.
pub fn table_at(message: &[u8], number: usize) -> Option<Table>
    requires { Accepted message.now }
    ensures { (f : Forest) → read_whole message.now new ≡ done f → TableMeets result message.now f number }
{
    if (LIMIT as usize) < message.len() {
        return None;
    }
    let at = skip(message, 0);
    match member(message, VALUE_LEVELS, false, at, 0, number) {
        Err(Stop::Found(table)) => Some(table),
        Err(Stop::Unread) => None,
        Ok(_) => None,
    }
}
