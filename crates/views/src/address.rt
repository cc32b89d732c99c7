// One slot by its address.
use format::answers::Span;
use format::refusals::Refusal;
use grid::{ask, held, shape};
use navigate::message::Message;
use navigate::way::{Leaves, Way};
use options::arguments::Address;
use show::dump;
use slot_views::address;
use slot_views::address::indexes;
use slot_views::one_slot::Slot;
use slot_views::reasons::{are_inside, refused_at};
use wording::block::Block;

// A slot that was asked for: where it stands, what is in it, and the bytes around it.
fn found(message: Message, slot: &Slot, first: usize, width: usize, paint: bool, out: &mut Block) {
    write!(out, "byte {first}, width {width}: ");
    slot.content(message, out);
    out.line();
    if 0 < width {
        dump::around(out, message.bytes, first, width, paint);
    }
}

// An address, as it was asked for.
fn asked(address: &Address, out: &mut Block) {
    out.text(b"slot ");
    address::shown(address, out);
    out.text(b": ");
}

// An address and the answer to it; the way leads to its leaf.
fn answered(
    message: Message,
    address: &Address,
    way: Way,
    answer: Result<Span, Refusal>,
    paint: bool,
    out: &mut Block,
) {
    asked(address, out);
    match answer {
        Err(refusal) => refused_at(message, address, refusal, out),
        Ok(Span { first, width }) => {
            let slot = Slot {
                row: address.row,
                way,
                indexes: address.indexes,
            };
            found(message, &slot, first, width, paint, out);
        }
    }
}

// One address.
fn one(message: Message, address: &Address, paint: bool, out: &mut Block) {
    let rows = message.rows;
    let row = address.row;
    let leaf = address.leaf.unwrap_or(0);
    let list = indexes(&address.indexes);
    let answer = ask::located(rows, message.size(), row, leaf, list, list.len());
    answered(
        message,
        address,
        Way::to(rows, row, leaf),
        answer,
        paint,
        out,
    );
}

// All slots of one record; one refusal where it isn't there.
fn record(message: Message, address: &Address, paint: bool, out: &mut Block) {
    if !are_inside(message.rows, address) {
        asked(address, out);
        refused_at(message, address, Refusal::NotThere, out);
        return;
    }
    for way in Leaves::of(message.rows, address.row) {
        let slot = Slot {
            row: address.row,
            way,
            indexes: address.indexes,
        };
        let answer = slot.located(message.rows, message.size());
        answered(message, &slot.address(), way, answer, paint, out);
    }
}

// Says that a row is not held, or that it lacks some below it.
fn missing(message: Message, row: usize, out: &mut Block) {
    if held::lacks_rows(message.rows, row) {
        writeln!(out, "row {row}: not all of its rows held");
    } else {
        writeln!(out, "row {row}: not held");
    }
}

// What an address leads to; whether the bytes are shown with colour.
pub fn shown(message: Message, address: &Address, paint: bool, out: &mut Block) {
    let rows = message.rows;
    let row = address.row;
    if held::is_missing(rows, row) {
        missing(message, row, out);
        return;
    }
    match address.leaf {
        None if shape::is_table(rows, row) => record(message, address, paint, out),
        Some(leaf) if shape::is_packed(rows, row) => writeln!(
            out,
            "row {row} is a packed array: its address has no LEAF {leaf}"
        ),
        _ => one(message, address, paint, out),
    }
}
