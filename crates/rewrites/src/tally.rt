// What is counted: the numbers of the summary.
use std::fmt;

// The kinds of rows, and none.
const KINDS: usize = 14;

// The sorts of faults.
const SORTS: usize = 12;

// The most messages with a fault that are listed.
const LISTED: usize = 8;

// A sort of faults.
#[derive(Clone, Copy)]
pub enum Fault {
    // A refused message with another answer than the reader's.
    Refusal,
    // Words or bytes that are not zero after a refusal.
    Left,
    // An accepted message that is not rewritten, though there is room.
    Answer,
    // Rows that are not the reader's, or bytes after the house form that are not zero.
    Rows,
    // A house form that the reader refuses, or of which it uses another number of rows.
    Again,
    // A house form for which the second reader gives another answer or other words.
    Second,
    // A row of another meaning.
    Words,
    // A payload with other bytes.
    Payloads,
    // An extension's id with another mark or another number.
    Ids,
    // What is not in house form.
    Form,
    // A house form that is changed by rewriting it.
    Twice,
    // An answer other than 11 at 0 where the room is a byte less than needed.
    Room,
}

// Each sort, in the summary's order.
const FAULTS: [Fault; SORTS] = [
    Fault::Refusal,
    Fault::Left,
    Fault::Answer,
    Fault::Rows,
    Fault::Again,
    Fault::Second,
    Fault::Words,
    Fault::Payloads,
    Fault::Ids,
    Fault::Form,
    Fault::Twice,
    Fault::Room,
];

impl fmt::Display for Fault {
    // What the summary calls it.
    fn fmt<W: fmt::Write>(&self, f: &mut fmt::Formatter<W>) -> fmt::Result {
        f.write_str(match *self {
            Fault::Refusal => "refused with another answer",
            Fault::Left => "words or bytes left after a refusal",
            Fault::Answer => "not rewritten",
            Fault::Rows => "rows other than the reader's, or bytes left",
            Fault::Again => "read again with another answer",
            Fault::Second => "the second reader differs",
            Fault::Words => "rows of another meaning",
            Fault::Payloads => "payloads with other bytes",
            Fault::Ids => "ids with other bytes",
            Fault::Form => "not in house form",
            Fault::Twice => "changed by rewriting again",
            Fault::Room => "another answer with a byte less",
        })
    }
}

// The numbers of the summary: of messages and bytes, of the rows compared by kind, of faults in all and by sort, of messages with a
// fault and which the first of these are.
#[derive(Drop)]
pub struct Tally {
    pub messages: u64,
    pub accepted: u64,
    pub rewritten: u64,
    pub unchanged: u64,
    pub changed: u64,
    pub bytes_read: u64,
    pub bytes_written: u64,
    pub faults: u64,
    by_kind: [u64; KINDS],
    by_sort: [u64; SORTS],
    faulty: usize,
    first: [u64; LISTED],
}

// So many more.
pub fn add(n: &mut u64, more: usize) {
    *n = n.saturating_add(more as u64);
}

impl Tally {
    // Nothing is counted yet.
    pub fn new() -> Tally {
        Tally {
            messages: 0,
            accepted: 0,
            rewritten: 0,
            unchanged: 0,
            changed: 0,
            bytes_read: 0,
            bytes_written: 0,
            faults: 0,
            by_kind: [0; KINDS],
            by_sort: [0; SORTS],
            faulty: 0,
            first: [0; LISTED],
        }
    }

    // A row of a kind.
    pub fn row(&mut self, kind: u32) {
        if let Some(n) = self.by_kind.get_mut(kind as usize) {
            add(n, 1);
        }
    }

    // A fault of a sort, unless what is told holds.
    pub fn expect(&mut self, sort: Fault, holds: bool) {
        if !holds {
            add(&mut self.faults, 1);
            if let Some(n) = self.by_sort.get_mut(sort as usize) {
                add(n, 1);
            }
        }
    }

    // Lists a message, if there are more faults than before it.
    pub fn list(&mut self, number: u64, before: u64) {
        if self.faults == before {
            return;
        }
        if let Some(listed) = self.first.get_mut(self.faulty) {
            *listed = number;
        }
        self.faulty = self.faulty.saturating_add(1);
    }
}

impl fmt::Display for Tally {
    // The summary: a line for each number.
    fn fmt<W: fmt::Write>(&self, f: &mut fmt::Formatter<W>) -> fmt::Result {
        writeln!(f, "messages: {}", self.messages)?;
        writeln!(f, "accepted: {}", self.accepted)?;
        writeln!(f, "rewritten: {}", self.rewritten)?;
        writeln!(f, "in house form already: {}", self.unchanged)?;
        writeln!(f, "changed: {}", self.changed)?;
        writeln!(f, "bytes read: {}", self.bytes_read)?;
        writeln!(f, "bytes written: {}", self.bytes_written)?;
        for (kind, n) in self.by_kind.iter().enumerate().skip(1) {
            writeln!(f, "rows compared, of kind {kind}: {n}")?;
        }
        for (sort, n) in FAULTS.iter().zip(&self.by_sort) {
            writeln!(f, "faults, {sort}: {n}")?;
        }
        writeln!(f, "messages with a fault: {}", self.faulty)?;
        for number in self.first.iter().take(self.faulty) {
            writeln!(f, "a message with a fault: {number}")?;
        }
        Ok(())
    }
}
