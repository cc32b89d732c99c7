// A slot: the mark that its bytes are read under, and where they stand. `size` is the message's length, below 2^63 as every
// slice's is.
ghost use Rattle.std.specs.Prelude.{◌≡◌, List, ℕ, ◌+◌, ◌*◌, ◌^◌, ◌<◌, ◌≤◌};
ghost use Rattle.format.specs.Rows.{row_at, rows_in};
ghost use Rattle.format.specs.Addresses as Addresses;
ghost use Rattle.indexes.specs.Sums.{capped};
ghost use Rattle.addresses.specs.Slots.{slot_of, Positions, in_record};

use format::answers::Span;
use format::limits::DIMENSION_LIMIT;
use format::marks::Mark;
use format::refusals::Refusal;
use indexes::{in_range, number};
use rows::{count, load};
use ways::dimensions::extents;
use ways::links::{along, along_child};
use ways::members::field;
use ways::needs::Need;

#[derive(Clone, Copy)]
pub struct Slot {
    pub mark: u32,
    pub span: Span,
}

// A slot, `less` bytes before `start`, must be inside the message.
fn inside(size: usize, mark: u32, start: usize, less: u32, wide: u32) -> Result<Slot, Refusal>
    requires { size < 2 ^ 63 }
    ensures { (ws : List ℕ) (total : ℕ) → start ≡ capped total → slot_of result ≡ Addresses.inside ws size mark total less wide }
{
    let back = less as usize;
    let width = wide as usize;
    if start < back {
        return Err(Refusal::RowsDontFit);
    }
    let first = start - back;
    if size < first || size - first < width {
        return Err(Refusal::RowsDontFit);
    }
    Ok(Slot {
        mark,
        span: Span { first, width },
    })
}

// So many bytes after a place, for each of a number, and then an offset.
fn start(from: usize, number: usize, each: usize, offset: u32) -> usize
    ensures { (place many : ℕ) → from ≡ capped place → number ≡ capped many → result ≡ capped (place + many * each + offset) }
{
    from.saturating_add(number.saturating_mul(each))
        .saturating_add(offset as usize)
}

// The number in storage order, capped, that indexes have in a container, whose dimensions stand from a row on.
fn positioned(
    rows: &[u32],
    container: usize,
    from: usize,
    indexes: &[usize],
) -> Result<usize, Refusal>
    requires { (container < rows_in rows.now) × ((row_at rows.now container).link ≤ rows_in rows.now) }
    ensures { Positions rows.now container from indexes.now result }
{
    let mut into = [0u32; DIMENSION_LIMIT];
    let many = extents(rows, container, from, &mut into)?;
    let dims = &into[..many];
    if !in_range(dims, indexes) {
        return Err(Refusal::NotThere);
    }
    Ok(number(load(rows, container).order, dims, indexes))
}

// A packed row and indexes. Inlined, since a call would hand the answer over in memory.
#[inline(always)]
pub fn packed(rows: &[u32], size: usize, row: usize, indexes: &[usize]) -> Result<Slot, Refusal>
    requires { size < 2 ^ 63 }
    ensures { slot_of result ≡ Addresses.packed_slot rows.now size row indexes.now }
{
    along(rows, Need::Packed, count(rows), row)?;
    let number = positioned(rows, row, row + 1, indexes)?;
    let p = load(rows, row);
    let wide = Mark::of(p.mark).width();
    let from = start(p.payload as usize, number, wide, 0);
    inside(size, p.mark, from, 0, wide as u32)
}

// A leaf's slot in a record of a table, by the number of the record. Inlined for the same reason.
#[inline(always)]
fn in_record(
    rows: &[u32],
    size: usize,
    row: usize,
    leaf: usize,
    field: usize,
    number: usize,
) -> Result<Slot, Refusal>
    requires { (size < 2 ^ 63) × (row + 1 < rows_in rows.now) × (leaf < rows_in rows.now) × (field < rows_in rows.now) }
    ensures { (r : ℕ) → number ≡ capped r → slot_of result ≡ in_record rows.now size row leaf field r }
{
    let t = load(rows, row);
    let o = load(rows, leaf);
    let payload = t.payload as usize;
    if t.mark == Mark::ARRAY as u32 {
        let record = load(rows, row + 1);
        let from = start(payload, number, record.extent as usize, o.payload);
        return inside(size, o.mark, from, 0, o.extent);
    }
    let f = load(rows, field);
    let column = payload.saturating_add((t.count as usize).saturating_mul(f.payload as usize));
    let from = start(column, number, f.extent as usize, o.payload);
    inside(size, o.mark, from, f.payload, o.extent)
}

// A table row, a leaf row and indexes.
pub fn table(
    rows: &[u32],
    size: usize,
    row: usize,
    leaf: usize,
    indexes: &[usize],
) -> Result<Slot, Refusal>
    requires { size < 2 ^ 63 }
    ensures { slot_of result ≡ Addresses.table_slot rows.now size row leaf indexes.now }
{
    let stop = along(rows, Need::Table, count(rows), row)?;
    let from = along_child(rows, row, Need::Schema, stop, row + 1)?;
    let top = field(rows, leaf, row + 1, row + 2)?;
    let number = positioned(rows, row, from, indexes)?;
    in_record(rows, size, row, leaf, top, number)
}
