// The addresses of a packed array or a table, in storage order.
use crate::entries::List;
use crate::payload::Payload;
use crate::tally::Tally;
use crate::tiling::entry;
use format::marks::Mark;
use grid::shape::{leaves, link, schema_end};

// The slots that a packed array or a table may have to be gone through.
const SLOTS: usize = 256;

// Whether it has at most so many slots, and the list room for them.
pub fn fits(payload: Payload<'_>, list: &List) -> bool {
    let room = SLOTS.min(list.room());
    let leaves = leaves(payload.rows, payload.row);
    payload.word(5) <= room.checked_div(leaves).unwrap_or(0)
}

// Lists one value for each element or record: the slots that some rows name, each asked for.
fn list_values(payload: Payload<'_>, from: usize, to: usize, list: &mut List, t: &mut Tally) {
    for number in 0..payload.word(5) {
        for leaf in (from..to).filter(|leaf| payload.names(*leaf)) {
            list.push(entry(payload, leaf, number, t));
        }
    }
}

// Lists the top-level fields of a table, each with one value for each record.
fn list_columns(payload: Payload<'_>, list: &mut List, t: &mut Tally) {
    let rows = payload.rows;
    let end = schema_end(rows, payload.row);
    let mut key = payload.row.saturating_add(2);
    // The step is a field, which is some rows.
    while key < end {
        let field = link(rows, key);
        let after = link(rows, field);
        list_values(payload, field, after, list, t);
        if after <= key {
            return;
        }
        key = after;
    }
}

// Lists its slots.
pub fn list_slots(payload: Payload<'_>, list: &mut List, t: &mut Tally) {
    let row = payload.row;
    if payload.is_packed() {
        list_values(payload, row, payload.next(), list, t);
    } else if payload.word(1) == usize::from(Mark::OBJECT) {
        list_columns(payload, list, t);
    } else {
        list_values(payload, row, schema_end(payload.rows, row), list, t);
    }
}
