// The row that a path of names leads to.
use crate::tree;
use format::answers::Kind;
use format::refusals::Refusal;
use grid::held::{before, is_cut};
use grid::shape;
use lookup::lookup;
use navigate::message::{Message, kind_of};
use rows::{Row, count, load, store};
use show::quoted::plain;
use show::scalars::refused;
use wording::block::Block;

// Why a name leads nowhere: the call's refusal; or it may stand among the rows that are not held.
#[derive(Clone, Copy, PartialEq, Eq)]
enum Nowhere {
    Refused(Refusal),
    NotHeld,
}

// The row whose names are looked up: of a table its schema's.
fn holder(rows: &[u32], row: usize) -> usize {
    if shape::is_table(rows, row) {
        return row.saturating_add(1);
    }
    row
}

// Whether the row has names, and may have more below it than are held.
fn may_have_more(rows: &[u32], row: usize) -> bool {
    let r = load(rows, row);
    let has_names = matches!(
        kind_of(r),
        Some(Kind::Object | Kind::Table | Kind::SchemaRecord)
    );
    has_names && is_cut(count(rows), r)
}

// The row that a name leads to among the rows that are held: for the call, the link of a row leads no further than they do.
fn among(message: &[u8], rows: &mut [u32], row: usize, name: &[u8]) -> Result<usize, Refusal> {
    let whole = load(rows, row);
    let held = before(rows, whole.link as usize);
    let link = u32::try_from(held).unwrap_or(whole.link);
    store(rows, row, Row { link, ..whole });
    let answer = lookup(message, rows, row, name);
    store(rows, row, whole);
    answer
}

// The row that one name leads to.
fn step(message: &[u8], rows: &mut [u32], row: usize, name: &[u8]) -> Result<usize, Nowhere> {
    match among(message, rows, holder(rows, row), name) {
        Ok(next) => Ok(next),
        Err(_) if may_have_more(rows, row) => Err(Nowhere::NotHeld),
        Err(refusal) => Err(Nowhere::Refused(refusal)),
    }
}

// The row that a path leads to, from row 0 on.
fn found(message: &[u8], rows: &mut [u32], path: &[u8]) -> Result<usize, Nowhere> {
    let mut row = 0;
    for name in path.split(|b| *b == b'/') {
        row = step(message, rows, row, name)?;
    }
    Ok(row)
}

// Why a path leads nowhere.
fn explained(nowhere: Nowhere, out: &mut Block) {
    match nowhere {
        Nowhere::NotHeld => out.text(b"not among the rows held"),
        Nowhere::Refused(refusal) => refused(out, refusal),
    }
    if nowhere == Nowhere::Refused(Refusal::RowsDontFit) {
        out.text(b": objects, tables and records alone have names");
    }
    out.line();
}

// A path, and what it leads to: a row and those below it, or nowhere.
pub fn shown(message: &[u8], rows: &mut [u32], path: &[u8], out: &mut Block) {
    out.text(b"name ");
    plain(out, path);
    out.text(b": ");
    match found(message, rows, path) {
        Err(nowhere) => explained(nowhere, out),
        Ok(row) => {
            writeln!(out, "row {row}");
            let end = shape::link(rows, row);
            let message = Message {
                bytes: message,
                rows,
            };
            tree::some(message, row, end, out);
        }
    }
}
