// Addresses that name no slot: each must be refused with the number that document 01 says.
use crate::payload::Payload;
use crate::tally::{Tally, count};
use addresses::calls::{packed_slot, table_slot};
use format::answers::Span;
use format::refusals::Refusal;
use grid::shape;

// Counts an answer that must be this refusal.
fn refused(answer: Result<Span, Refusal>, why: Refusal, t: &mut Tally) {
    t.expect(answer == Err(why));
    count(&mut t.outside);
}

// One index too few, and one too many.
fn counts(payload: Payload<'_>, leaf: usize, t: &mut Tally) {
    let indexes = [0usize; 9];
    let n = payload.rank();
    let short = payload.located(leaf, &indexes, n.saturating_sub(1));
    let long = payload.located(leaf, &indexes, n.saturating_add(1));
    refused(short, Refusal::NotThere, t);
    refused(long, Refusal::NotThere, t);
}

// The slot of the address with every index 0 but one, which is as large as its dimension.
fn past(payload: Payload<'_>, leaf: usize, j: usize) -> Result<Span, Refusal> {
    let mut indexes = [0usize; 9];
    if let Some(index) = indexes.get_mut(j) {
        *index = shape::extent(payload.rows, payload.row, j);
    }
    payload.located(leaf, &indexes, payload.rank())
}

// An index as large as its dimension, for each index.
fn ranges(payload: Payload<'_>, leaf: usize, t: &mut Tally) {
    for j in 0..payload.rank() {
        refused(past(payload, leaf, j), Refusal::NotThere, t);
    }
}

// Another row in the place of the leaf; of a packed array there is none.
fn stranger(payload: Payload<'_>, leaf: usize, t: &mut Tally) {
    if !payload.is_packed() {
        let indexes = [0usize; 9];
        let answer = payload.located(leaf, &indexes, payload.rank());
        refused(answer, Refusal::RowsDontFit, t);
    }
}

// With a row in the place of the leaf: wrong indexes where it names slots, and the row itself where it names none.
fn beside(payload: Payload<'_>, leaf: usize, t: &mut Tally) {
    if payload.names(leaf) {
        ranges(payload, leaf, t);
        counts(payload, leaf, t);
    } else {
        stranger(payload, leaf, t);
    }
}

// With each row up to one after the last in the place of the leaf.
pub fn around(payload: Payload<'_>, used: usize, t: &mut Tally) {
    for leaf in 0..=used {
        beside(payload, leaf, t);
    }
}

// A row of another kind in the place of a packed array's, and in that of a table's, whose first leaf would be three rows on.
pub fn other_kinds(payload: Payload<'_>, t: &mut Tally) {
    let Payload { rows, size, row } = payload;
    let index = [0usize; 1];
    if !payload.is_packed() {
        refused(
            packed_slot(rows, size, row, &index),
            Refusal::RowsDontFit,
            t,
        );
    }
    if !payload.is_table() {
        let leaf = row.saturating_add(3);
        refused(
            table_slot(rows, size, row, leaf, &index),
            Refusal::RowsDontFit,
            t,
        );
    }
}
