// The members of a schema: the top-level field that is a leaf or holds it.
ghost use Rattle.std.specs.Prelude.{◌≡◌, ◌≤◌, ◌<◌, length};
ghost use Rattle.format.specs.Rows.{row_at, rows_in};
ghost use Rattle.format.specs.Addresses.{seek as seek_in};
ghost use Rattle.format.specs.Answers.{found};
ghost use Rattle.rows.specs.Row.{row_of};
ghost use Rattle.ways.specs.Members.{member_from, Passes, Steps, AreRows};

use crate::links::along_child;
use crate::needs::Need;
use format::refusals::Refusal;
use rows::{Row, load};

// One member further: the leaf's row; the member that holds it; or the row after a member that doesn't.
#[derive(Clone, Copy)]
pub enum Step {
    Leaf(usize),
    Inside(usize),
    Next(usize),
}

// The member of a container from a row on: in a schema it stands where its key's link leads.
fn member(rows: &[u32], container: usize, c: Row, row: usize) -> Result<usize, Refusal>
    requires { (row_of c).link ≤ rows_in rows.now }
    ensures { found result ≡ member_from rows.now container (row_of c) row }
{
    if Need::Schema.fits(c) {
        along_child(rows, container, Need::Key, c.link as usize, row)
    } else {
        Ok(row)
    }
}

// Whether this member is the leaf or holds it.
fn pass(rows: &[u32], leaf: usize, container: usize, c: Row, here: usize) -> Result<Step, Refusal>
    requires { (row_of c).link ≤ rows_in rows.now }
    ensures { Passes rows.now leaf container (row_of c) here result }
{
    let next = along_child(rows, container, Need::Member, c.link as usize, here)?;
    if leaf < here || next <= leaf {
        return Ok(Step::Next(next));
    }
    let found = leaf == here;
    if Need::Leaf.fits(load(rows, here)) != found {
        return Err(Refusal::RowsDontFit);
    }
    if found {
        Ok(Step::Leaf(here))
    } else {
        Ok(Step::Inside(here))
    }
}

// One member further in a container.
fn advance(rows: &[u32], leaf: usize, container: usize, row: usize) -> Result<Step, Refusal>
    requires { (container < rows_in rows.now) × ((row_at rows.now container).link ≤ rows_in rows.now) }
    ensures { Steps rows.now leaf container row result }
{
    let c = load(rows, container);
    let here = member(rows, container, c, row)?;
    pass(rows, leaf, container, c, here)
}

// The field of a schema, from a row on, that is the leaf or holds it.
pub fn field(rows: &[u32], leaf: usize, schema: usize, from: usize) -> Result<usize, Refusal>
    requires { (schema < rows_in rows.now) × ((row_at rows.now schema).link ≤ rows_in rows.now) }
    ensures is { found result ≡ seek_in rows.now leaf (length rows.now) schema from }
    ensures bounds { AreRows rows.now leaf result }
{
    let mut container = schema;
    let mut row = from;
    // The member of the schema itself, once one was gone into.
    let mut top = None;
    // No `for`: the next row is where a link leads, or stands inside this one.
    loop {
        match advance(rows, leaf, container, row)? {
            Step::Leaf(here) => return Ok(top.unwrap_or(here)),
            Step::Inside(here) => {
                top = top.or(Some(here));
                container = here;
                row = here + 1;
            }
            Step::Next(next) => row = next,
        }
    }
}
