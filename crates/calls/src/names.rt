// The calls by name.
use lines::text::Text;

// A call of the library.
#[derive(Clone, Copy)]
pub enum Call {
    PackedSlot,
    TableSlot,
    ValueAtRow,
    ValueInPacked,
    ValueInTable,
    TextAtRow,
    TextInTable,
    Lookup,
}

// The call whose name stands at the front, with a space after it.
pub fn named(text: Text<'_>) -> Option<Call> {
    let end = text.rest.iter().position(|b| *b == b' ')?;
    match &text.rest[..end] {
        b"packed_slot" => Some(Call::PackedSlot),
        b"table_slot" => Some(Call::TableSlot),
        b"value_at_row" => Some(Call::ValueAtRow),
        b"value_in_packed" => Some(Call::ValueInPacked),
        b"value_in_table" => Some(Call::ValueInTable),
        b"text_at_row" => Some(Call::TextAtRow),
        b"text_in_table" => Some(Call::TextInTable),
        b"lookup" => Some(Call::Lookup),
        _ => None,
    }
}
