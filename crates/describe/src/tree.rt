// The rows as a table, indented by depth.
use crate::row;
use navigate::message::Message;
use rows::Row;
use wording::block::Block;
use wording::names::plural;

// The columns of a number, and of a small one.
const WIDE: usize = 8;

const NARROW: usize = 6;

// A row's number, and its first words: where the token and its payload stand, and how long the payload is.
fn places(row: usize, r: Row, out: &mut Block) {
    out.right(row, WIDE);
    for word in [r.first, r.payload, r.extent] {
        out.right(word as usize, WIDE);
    }
}

// The row that holds this one; the outermost is held by none.
fn parent(r: Row, out: &mut Block) {
    match r.parent.checked_sub(1) {
        Some(parent) => out.right(parent as usize, WIDE),
        None => {
            out.spaces(WIDE - 1);
            out.byte(b'-');
        }
    }
}

// The other words: count, link, order, parent and depth.
fn links(r: Row, out: &mut Block) {
    out.right(r.count as usize, WIDE);
    out.right(r.link as usize, WIDE);
    out.right(r.order as usize, NARROW);
    parent(r, out);
    out.right(r.depth as usize, NARROW);
}

// One row, indented by how much deeper it is than the first that is shown.
fn line(message: Message, row: usize, outer: u32, out: &mut Block) {
    let r = message.row(row);
    places(row, r, out);
    links(r, out);
    let deeper = r.depth.saturating_sub(outer) as usize;
    out.spaces(2 + 2 * deeper);
    row::shown(message, row, out);
    out.line();
}

// The rows from one on, before another, as far as they are held, with the names of the columns.
pub fn some(message: Message, from: usize, end: usize, out: &mut Block) {
    let outer = message.row(from).depth;
    out.text(b"     row   first payload  length   count    next order  parent depth  token\n");
    for row in from..message.before(end) {
        line(message, row, outer, out);
    }
    let left = message.missing(end);
    if 0 < left {
        writeln!(out, "     and {left} more row{}, not held", plural(left));
    }
}
