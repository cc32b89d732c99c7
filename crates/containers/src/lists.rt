// What an array or object holds, read one member after another, and the row over it.
ghost use Rattle.std.specs.Prelude.{◌≡◌, List, ℕ, ◌+◌, ◌-◌, ◌≤◌, ◌<◌};
ghost use Rattle.format.specs.Outcome.{Parsed};
ghost use Rattle.format.specs.Limits.{limit};
ghost use Rattle.format.specs.Marks.{opening_of};
ghost use Rattle.format.specs.Tokens.{Forest};
ghost use Rattle.format.specs.Answers.{kind_of};
ghost use Rattle.format.specs.Containers.{container_kind};
ghost use Rattle.format.specs.Rows.{held_by};
ghost use Rattle.rows.specs.Row.{ancestry_of};
ghost use Rattle.tokens.specs.Answers.{Laid, Ends, Meets, Within};
ghost use Rattle.containers.specs.Lists.{ListLaid, ListEnds, ListMeets, ListWithin, closed};

use format::answers::Kind;
use format::marks::opening_mark;
use format::refusals::Refused;
use rows::Ancestry;
use tokens::entry::{Entry, put};
use tokens::{End, Members};

// The kind of a container.
#[tactic(auto, unfolding(format::specs::Containers::container_kind))]
pub fn container_kind(brace: bool) -> Kind
    ensures { kind_of result ≡ container_kind (opening_of brace) }
{
    if brace {
        return Kind::Object;
    }
    Kind::Array
}

// The row of an array or object over what it holds, which starts at `start` and is followed by `shut` bytes of closing mark.
pub fn enclose(
    rows: &mut [u32],
    brace: bool,
    at: usize,
    row: usize,
    start: usize,
    shut: usize,
    list: Members,
    ancestry: Ancestry,
) -> End
    requires { (row ≤ at) × (at < start) × (shut ≤ 1) × ListEnds start limit limit list }
    ensures meets { (o : Parsed Forest) (before : List ℕ) → ListLaid list o (row + 1) (held_by row (ancestry_of ancestry)) before rows.old → Laid (closed (opening_of brace) at start shut o) row 1 (ancestry_of ancestry) before rows.new result.at result.row }
    ensures bounds { (high lent : ℕ) → ListEnds start (high - shut) lent list → shut ≤ high → Ends start high lent result.at result.row }
{
    put(
        rows,
        row,
        Entry {
            kind: container_kind(brace),
            mark: opening_mark(brace),
            first: at,
            payload: start,
            extent: list.at - start,
            count: list.count,
            order: 0,
        },
        list.row,
        ancestry,
    );
    End {
        at: list.at + shut,
        row: list.row,
    }
}

// The same over a list that may be refused: its refusal is handed on.
pub fn close(
    rows: &mut [u32],
    brace: bool,
    at: usize,
    row: usize,
    start: usize,
    shut: usize,
    list: Result<Members, Refused>,
    ancestry: Ancestry,
) -> Result<End, Refused>
    requires { (row ≤ at) × (at < start) × (shut ≤ 1) × ListWithin list start limit limit }
    ensures meets { (o : Parsed Forest) (before : List ℕ) → ListMeets list o (row + 1) (held_by row (ancestry_of ancestry)) before rows.old → Meets result (closed (opening_of brace) at start shut o) row 1 (ancestry_of ancestry) before rows.new }
    ensures bounds { (high lent : ℕ) → ListWithin list start (high - shut) lent → shut ≤ high → Within result start high lent }
{
    let members = list?;
    Ok(enclose(rows, brace, at, row, start, shut, members, ancestry))
}
