// The walk over the rows of a message: tokens side by side are a loop, those below a token a call.
ghost use Rattle.std.specs.Prelude.{◌≡◌, true, ◌+◌, ◌*◌, ◌-◌, ◌≤◌, eqb};
ghost use Rattle.format.specs.Tokens.{kind_number, table as kind_of_table};
ghost use Rattle.format.specs.HouseForm.{token as token_in, written, house};
ghost use Rattle.rows.specs.Row.{row_of};
ghost use Rattle.pieces.specs.Puts.{Puts};
ghost use Rattle.forests.specs.Held.{Held, HeldToken, Room, most};

use format::answers::Kind;
use rows::{Row, link as link_of, load};
use writer::by_row::{put_head, put_middle, put_single, put_tail};
use writer::kinds::is_single;

// The table of row r, whose rows end at `link`: its schema, and then its dimensions.
#[cycle(put_table_put_token_put_tokens)]
fn put_table(
    message: &[u8],
    rows: &[u32],
    output: &mut [u8],
    at: usize,
    row: usize,
    link: usize,
    r: Row,
) -> usize
    requires { HeldToken rows.now row link (row_of r) × Room message.now at row link × (eqb r.kind (kind_number kind_of_table) ≡ true) }
    ensures puts { (h : HeldToken rows.now row link (row_of r))
        → Puts output.old output.new at result (token_in message.now h.token.kind h.token (written message.now h.below)) }
    ensures bounds { result ≤ at + most * (link - row) }
{
    let below = row + 1;
    let split = link_of(rows, below);
    let start = put_head(output, at, r);
    let schema = put_tokens(message, rows, output, start, below, split);
    let middle = put_middle(output, schema, r);
    let end = put_tokens(message, rows, output, middle, split, link);
    put_tail(message, output, end, r)
}

// The token of row r, whose rows end at `link`.
#[cycle(put_table_put_token_put_tokens)]
fn put_token(
    message: &[u8],
    rows: &[u32],
    output: &mut [u8],
    at: usize,
    row: usize,
    link: usize,
    r: Row,
) -> usize
    requires { HeldToken rows.now row link (row_of r) × Room message.now at row link }
    ensures puts { (h : HeldToken rows.now row link (row_of r))
        → Puts output.old output.new at result (token_in message.now h.token.kind h.token (written message.now h.below)) }
    ensures bounds { result ≤ at + most * (link - row) }
{
    if is_single(r.kind) {
        return put_single(message, output, at, r);
    }
    if r.kind == Kind::Table.number() {
        return put_table(message, rows, output, at, row, link, r);
    }
    let below = row + 1;
    let start = put_head(output, at, r);
    let end = put_tokens(message, rows, output, start, below, link);
    put_tail(message, output, end, r)
}

// The tokens whose rows go from `first` up to `stop`.
#[cycle(put_table_put_token_put_tokens)]
pub fn put_tokens(
    message: &[u8],
    rows: &[u32],
    output: &mut [u8],
    at: usize,
    first: usize,
    stop: usize,
) -> usize
    requires { Held rows.now first stop × Room message.now at first stop }
    ensures puts { (h : Held rows.now first stop)
        → Puts output.old output.new at result (house message.now h.tokens) }
    ensures bounds { result ≤ at + most * (stop - first) }
{
    let mut row = first;
    let mut to = at;
    // No `for`: the next row is where this one's link leads.
    while row < stop {
        let r = load(rows, row);
        let link = r.link as usize;
        to = put_token(message, rows, output, to, row, link, r);
        row = link;
    }
    to
}
