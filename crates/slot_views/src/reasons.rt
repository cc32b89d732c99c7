// Why an address is refused, in words.
use crate::address::indexes;
use format::refusals::Refusal;
use grid::{held, shape};
use navigate::message::Message;
use options::arguments::Address;
use show::scalars::refused;
use std::fmt::Display;
use wording::block::Block;
use wording::names::{kind, plural};

// The first index that is too large, and what it must be below.
fn first_over(rows: &[u32], row: usize, indexes: &[usize]) -> Option<(usize, usize)> {
    indexes
        .iter()
        .enumerate()
        .map(|(j, index)| (*index, shape::extent(rows, row, j)))
        .find(|(index, below)| below <= index)
}

// Whether there are as many indexes as dimensions, and each is small enough.
pub fn are_inside(rows: &[u32], address: &Address) -> bool {
    let indexes = indexes(&address.indexes);
    let row = address.row;
    indexes.len() == shape::rank(rows, row) && first_over(rows, row, indexes).is_none()
}

// What is wrong with the indexes.
fn of_indexes(rows: &[u32], row: usize, indexes: &[usize], out: &mut Block) {
    let rank = shape::rank(rows, row);
    let given = indexes.len();
    if given != rank {
        write!(out, ": row {row} has {rank} dimension{}", plural(rank));
        writeln!(out, "; indexes given: {given}");
        return;
    }
    match first_over(rows, row, indexes) {
        Some((index, 0)) => writeln!(out, ": index {index}, and there are none"),
        Some((index, below)) => writeln!(out, ": index {index} is not among 0 to {}", below - 1),
        None => out.line(),
    }
}

// A row, which is not what is asked for; or how many rows there are, where the message doesn't have it.
fn not_a(message: Message, row: usize, what: impl Display + Drop, out: &mut Block) {
    let needed = message.needed();
    if needed <= row {
        writeln!(
            out,
            ": row {row}, but there are {needed} row{}",
            plural(needed)
        );
        return;
    }
    let kind = kind(message.row(row).kind as usize);
    writeln!(out, ": row {row} ({kind}) is no {what}");
}

// What is wrong with the rows.
fn of_rows(message: Message, row: usize, leaf: usize, out: &mut Block) {
    if !held::has_slots(message.row(row)) {
        not_a(message, row, "packed array and no table", out);
    } else if shape::names(message.rows, row, leaf) {
        out.line();
    } else {
        not_a(message, leaf, format_args!("leaf of row {row}"), out);
    }
}

// A refusal, and what is wrong with the address.
pub fn refused_at(message: Message, address: &Address, refusal: Refusal, out: &mut Block) {
    refused(out, refusal);
    let row = address.row;
    if refusal == Refusal::NotThere {
        of_indexes(message.rows, row, indexes(&address.indexes), out);
    } else {
        of_rows(message, row, address.leaf.unwrap_or(0), out);
    }
}
