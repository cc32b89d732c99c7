// What a container's indexes are for: its count, or its dimensions.
ghost use Rattle.std.specs.Prelude.{◌≡◌, ◌≤◌, ◌<◌, length};
ghost use Rattle.format.specs.Limits.{dimension_limit};
ghost use Rattle.format.specs.Rows.{row_at, rows_in};
ghost use Rattle.format.specs.Addresses as Addresses;
ghost use Rattle.ways.specs.Dimensions.{Gathers, some_few};

use crate::links::along_child;
use crate::needs::Need;
use format::limits::DIMENSION_LIMIT;
use format::refusals::Refusal;
use rows::load;

// The counts of the dimension rows from `from` up to the container's link, stored into `into`; how many were stored.
fn rows_from(
    rows: &[u32],
    container: usize,
    stop: usize,
    from: usize,
    into: &mut [u32],
) -> Result<usize, Refusal>
    requires { (stop ≡ (row_at rows.now container).link) × (stop ≤ rows_in rows.now) × (length into.old ≡ dimension_limit) }
    ensures { Gathers result (some_few rows.now container from) into.new }
{
    let mut row = from;
    let mut many = 0;
    // The rows are followed by their links, so that no iterator counts them.
    while row < stop {
        let next = along_child(rows, container, Need::Dimension, stop, row)?;
        if many == DIMENSION_LIMIT {
            return Err(Refusal::RowsDontFit);
        }
        into[many] = load(rows, row).count;
        many += 1;
        row = next;
    }
    if many == 0 {
        return Err(Refusal::RowsDontFit);
    }
    Ok(many)
}

// The count of a container with a plain count, or the dimensions that stand from `from` on, stored into `into`, which the caller
// lends since there is no heap; how many were stored.
pub fn extents(
    rows: &[u32],
    container: usize,
    from: usize,
    into: &mut [u32],
) -> Result<usize, Refusal>
    requires { (container < rows_in rows.now) × ((row_at rows.now container).link ≤ rows_in rows.now) × (length into.old ≡ dimension_limit) }
    ensures { Gathers result (Addresses.dimensions rows.now container from) into.new }
{
    let c = load(rows, container);
    if c.order == 0 {
        into[0] = c.count;
        return Ok(1);
    }
    rows_from(rows, container, c.link as usize, from, into)
}
