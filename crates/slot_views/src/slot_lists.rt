// The slots of packed arrays and tables, in storage order.
use crate::address;
use crate::one_slot::Slot;
use describe::row;
use describe::row::Unit;
use format::answers::Span;
use grid::held;
use navigate::message::{Message, payload_end};
use navigate::room;
use navigate::way::{Groups, Way};
use rows::Row;
use show::dump;
use show::scalars::refused;
use wording::block::Block;
use wording::names::plural;

// The slots of a packed array or a table that are listed: its row, what it has, and how many of these are listed; others are left out.
#[derive(Clone, Copy)]
struct Listing {
    row: usize,
    unit: Unit,
    count: usize,
    left: usize,
}

impl Listing {
    // As many elements or records as half of the room is enough for, so that others are shown after it. They take their room.
    fn new(message: Message, row: usize, room: &mut usize) -> Listing {
        let r = message.row(row);
        let total = r.count as usize;
        let each = room::cost(message, row);
        let enough = (*room / 2).checked_div(each).unwrap_or(0);
        let count = total.min(enough);
        *room = room.saturating_sub(count.saturating_mul(each));
        Listing {
            row,
            unit: Unit::of(r),
            count,
            left: total - count,
        }
    }

    // Shows each slot.
    fn each<F: FnMut(Slot)>(&self, rows: &[u32], mut show: F)
        requires { F.IsAlwaysCallable show }
    {
        if self.unit == Unit::Element {
            for number in 0..self.count {
                show(Slot::of_number(rows, self.row, Way::new(), number));
            }
            return;
        }
        for leaves in Groups::of(rows, self.row) {
            for number in 0..self.count {
                for way in leaves {
                    show(Slot::of_number(rows, self.row, way, number));
                }
            }
        }
    }
}

// The address of a slot, and what is in it.
fn filled(message: Message, slot: &Slot, out: &mut Block) {
    address::shown(&slot.address(), out);
    out.spaces(2);
    slot.content(message, out);
    out.line();
}

// A slot, after where it stands and how wide it is; or why it is refused.
fn in_line(message: Message, slot: &Slot, out: &mut Block) {
    match slot.located(message.rows, message.size()) {
        Err(refusal) => {
            refused(out, refusal);
            out.line();
        }
        Ok(Span { first, width }) => {
            out.right(first, 8);
            out.right(width, 8);
            out.spaces(2);
            filled(message, slot, out);
        }
    }
}

// The bytes of slots that are left out, if there are any: those from one on, before another.
fn left_out(message: &[u8], list: &Listing, from: usize, end: usize, out: &mut Block) {
    if end <= from {
        return;
    }
    let Listing {
        row,
        unit,
        left,
        ..
    } = *list;
    dump::head(out, message, from, end);
    write!(
        out,
        "row {row}: slots of {left} more {unit}{}",
        plural(left)
    );
    out.text(b", not listed\n");
    dump::rest(out, message, from, end);
}

// A slot beside its bytes, if it has some, after those from a byte on that are left out before it; answers the byte after it.
fn beside(message: Message, list: &Listing, from: usize, slot: &Slot, out: &mut Block) -> usize {
    match slot.located(message.rows, message.size()) {
        Err(_) | Ok(Span { width: 0, .. }) => from,
        Ok(Span { first, width }) => {
            let end = first.saturating_add(width);
            left_out(message.bytes, list, from, first, out);
            dump::head(out, message.bytes, first, end);
            out.text(b"slot ");
            filled(message, slot, out);
            dump::rest(out, message.bytes, first, end);
            end
        }
    }
}

// The slots of a packed array or a table, each beside its bytes, from a byte on; and what is left out of them.
pub fn by_bytes(message: Message, row: usize, from: usize, room: &mut usize, out: &mut Block) {
    let list = Listing::new(message, row, room);
    let mut byte = from;
    list.each(message.rows, |slot| {
        byte = beside(message, &list, byte, &slot, out);
    });
    left_out(
        message.bytes,
        &list,
        byte,
        payload_end(message.row(row)),
        out,
    );
}

// The slots of a packed array or a table, a line for each, and how many elements or records are left out.
fn by_lines(message: Message, row: usize, room: &mut usize, out: &mut Block) {
    let list = Listing::new(message, row, room);
    list.each(message.rows, |slot| in_line(message, &slot, out));
    let Listing { unit, left, .. } = list;
    if 0 < left {
        write!(
            out,
            "   and the slots of {left} more {unit}{}",
            plural(left)
        );
        out.text(b", not shown; --at shows those of one\n");
    }
}

// The row and the slots of a packed array or a table; the row alone where not all of its rows are held.
fn one(message: Message, row: usize, r: Row, room: &mut usize, out: &mut Block) {
    row::numbered(message, row, out);
    if message.is_cut(r) {
        out.text(b": its slots are not shown\n");
        return;
    }
    out.text(b"\n   first   width  address and value\n");
    by_lines(message, row, room, out);
}

// The slots of each packed array and table, as far as rows are held.
pub fn every(message: Message, out: &mut Block) {
    let mut room = room::all(message);
    for row in 0..message.held() {
        let r = message.row(row);
        if held::has_slots(r) {
            one(message, row, r, &mut room, out);
        }
    }
    let left = message.missing(message.needed());
    if 0 < left {
        write!(out, "and any slots of {left} more row{}", plural(left));
        out.text(b", not held\n");
    }
}
