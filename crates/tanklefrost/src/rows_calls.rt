// The calls over rows, which may come from anywhere: slots, values, texts and lookup. They change nothing.
ghost use Rattle.std.specs.Prelude.{◌≡◌};
ghost use Rattle.format.specs.Addresses.{packed_slot, table_slot};
ghost use Rattle.format.specs.Values.{value_at_row, value_in_packed, value_in_table};
ghost use Rattle.format.specs.TextAnswers.{text_at_row, text_in_table};
ghost use Rattle.format.specs.Lookup.{lookup as lookup_in};
ghost use Rattle.format.specs.Answers.{first_and_width};
ghost use Rattle.structs.specs.Answers.{place_for, member_for, scalar_for};

use structs::answers::{Member, Place, Scalar, scalar_of};

// The slot of a packed row and indexes. `size` is the message's length.
#[unsafe(no_mangle)]
pub extern "C" fn tanklefrost_packed_slot(
    rows: &[u32],
    size: u32,
    row: usize,
    indexes: &[usize],
) -> Place
    ensures { result ≡ place_for (first_and_width (packed_slot rows.now size row indexes.now)) }
{
    Place::from(addresses::calls::packed_slot(rows, size, row, indexes))
}

// The slot of a table row, a leaf row and indexes.
#[unsafe(no_mangle)]
pub extern "C" fn tanklefrost_table_slot(
    rows: &[u32],
    size: u32,
    row: usize,
    leaf: usize,
    indexes: &[usize],
) -> Place
    ensures { result ≡ place_for (first_and_width (table_slot rows.now size row leaf indexes.now)) }
{
    Place::from(addresses::calls::table_slot(rows, size, row, leaf, indexes))
}

// The value at a row of kind 1.
#[unsafe(no_mangle)]
pub extern "C" fn tanklefrost_value_at_row(message: &[u8], rows: &[u32], row: usize) -> Scalar
    ensures { result ≡ scalar_for (value_at_row message.now rows.now row) }
{
    scalar_of(values::at_rows::value_at_row(message, rows, row))
}

// The value in the slot of a packed row and indexes.
#[unsafe(no_mangle)]
pub extern "C" fn tanklefrost_value_in_packed(
    message: &[u8],
    rows: &[u32],
    row: usize,
    indexes: &[usize],
) -> Scalar
    ensures { result ≡ scalar_for (value_in_packed message.now rows.now row indexes.now) }
{
    scalar_of(slots::value::value_in_packed(message, rows, row, indexes))
}

// The value in the slot of a table row, a leaf row and indexes.
#[unsafe(no_mangle)]
pub extern "C" fn tanklefrost_value_in_table(
    message: &[u8],
    rows: &[u32],
    row: usize,
    leaf: usize,
    indexes: &[usize],
) -> Scalar
    ensures { result ≡ scalar_for (value_in_table message.now rows.now row leaf indexes.now) }
{
    scalar_of(slots::value::value_in_table(message, rows, row, leaf, indexes))
}

// The first byte and the length of the text at a row of kinds 2 to 4.
#[unsafe(no_mangle)]
pub extern "C" fn tanklefrost_text_at_row(message: &[u8], rows: &[u32], row: usize) -> Place
    ensures { result ≡ place_for (first_and_width (text_at_row message.now rows.now row)) }
{
    Place::from(texts::at_rows::number_at_row(message, rows, row))
}

// The first byte and the length of the text in the slot of a table row, a leaf row and indexes.
#[unsafe(no_mangle)]
pub extern "C" fn tanklefrost_text_in_table(
    message: &[u8],
    rows: &[u32],
    row: usize,
    leaf: usize,
    indexes: &[usize],
) -> Place
    ensures { result ≡ place_for (first_and_width (text_in_table message.now rows.now row leaf indexes.now)) }
{
    Place::from(slots::text::number_in_table(message, rows, row, leaf, indexes))
}

// The row that a name leads to in an object or a schema record.
#[unsafe(no_mangle)]
pub extern "C" fn tanklefrost_lookup(
    message: &[u8],
    rows: &[u32],
    row: usize,
    name: &[u8],
) -> Member
    ensures { result ≡ member_for (lookup_in message.now rows.now name.now row) }
{
    Member::from(lookup::lookup(message, rows, row, name))
}
