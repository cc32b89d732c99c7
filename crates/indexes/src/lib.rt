// Indexes to the number of an element, and sums capped at the highest that a machine word holds.
#![tactic(auto)]

ghost use Rattle.std.specs.Prelude.{◌≡◌, true, ◌+◌, ◌*◌};
ghost use Rattle.format.specs.Indexes.{in_range, last_number, first_number, number_in};
ghost use Rattle.indexes.specs.Sums.{capped};

// One index for each extent, below it.
pub fn in_range(extents: &[u32], indexes: &[usize]) -> bool
    ensures { result ≡ in_range extents.now indexes.now }
{
    if extents.len() != indexes.len() {
        return false;
    }
    for (extent, index) in extents.iter().zip(indexes) {
        if *extent as usize <= *index {
            return false;
        }
    }
    true
}

// A number with one more place: so many of the extent, and an index.
fn longer(number: usize, extent: u32, index: usize) -> usize
    ensures { result ≡ capped (capped (number * extent) + index) }
{
    number.saturating_mul(extent as usize).saturating_add(index)
}

// The number of indexes in range, the last index moving fastest.
fn last_fastest(extents: &[u32], indexes: &[usize]) -> usize
    requires { in_range extents.now indexes.now ≡ true }
    ensures { result ≡ capped (last_number extents.now indexes.now) }
{
    let mut number = 0;
    for (extent, index) in extents.iter().zip(indexes) {
        number = longer(number, *extent, *index);
    }
    number
}

// The first index moving fastest.
fn first_fastest(extents: &[u32], indexes: &[usize]) -> usize
    requires { in_range extents.now indexes.now ≡ true }
    ensures { result ≡ capped (first_number extents.now indexes.now) }
{
    let mut number = 0;
    for k in (0..extents.len()).rev() {
        number = longer(number, extents[k], indexes[k]);
    }
    number
}

// The number of indexes in range, by the order.
pub fn number(order: u32, extents: &[u32], indexes: &[usize]) -> usize
    requires { in_range extents.now indexes.now ≡ true }
    ensures { result ≡ capped (number_in order extents.now indexes.now) }
{
    if order == 2 {
        return first_fastest(extents, indexes);
    }
    last_fastest(extents, indexes)
}
