// The way through the bytes of an accepted message: runs of bytes, and the part of the message that each belongs to.
ghost use Rattle.std.specs.Prelude.{◌≡◌, ◌<◌, ◌≤◌, ◌-◌, length};
ghost use Rattle.std.specs.Iterator.{at_most};

use crate::message::{Message, kind_of, payload_end};
use format::answers::Kind;
use format::marks::Mark;
use grid::held::has_slots;
use rows::Row;

// The part of a message that bytes belong to.
#[derive(Clone, Copy)]
pub enum Part {
    // The start of a row: all of a token that holds no others, or what stands before the first that it holds.
    Start(usize),
    // The rest of a packed array's or a table's header.
    Header(usize),
    // Its slots.
    Slots(usize),
    // The mark that closes a row.
    Close(usize),
    // No-ops.
    NoOps,
    // Rows that are not held.
    Unheld,
}

// Bytes from one on, before another, that belong to one part.
#[derive(Clone, Copy)]
pub struct Run {
    pub part: Part,
    pub from: usize,
    pub end: usize,
}

// A row that is open, and the byte after it, if it is a container.
#[derive(Clone, Copy)]
struct Open {
    row: usize,
    end: Option<usize>,
}

// Where the way has come to.
#[derive(Clone, Copy)]
pub struct Walk<'a> {
    message: Message<'a>,
    // The byte, and the first row that is not open yet.
    byte: usize,
    row: usize,
    // The rows that are open, the innermost last, and how many there are: a message nests less deep than there is room. The room is
    // fixed, since nothing is allocated.
    open: [Open; 64],
    depth: usize,
    // The byte after all that belongs to the rows opened so far, closing marks aside.
    reached: usize,
    ghost inside: { depth ≤ 64 },
}

// Whether a row holds others.
fn holds_others(r: Row) -> bool {
    matches!(
        kind_of(r),
        Some(
            Kind::Array
                | Kind::Object
                | Kind::Packed
                | Kind::Table
                | Kind::SchemaRecord
                | Kind::FixedArray
        )
    )
}

// Whether a row is a container's, whose end its payload and a closing mark tell.
fn is_container(r: Row) -> bool {
    matches!(
        kind_of(r),
        Some(Kind::Array | Kind::Object | Kind::Packed | Kind::Table)
    )
}

// The byte after a leaf's kind in a schema: its mark, and a text's length.
fn leaf_end(message: Message, r: Row) -> usize {
    let first = r.first as usize;
    if message.byte(first) != Some(Mark::TEXT) {
        return first + 1;
    }
    let length = message.byte(first + 1).unwrap_or(0);
    (first + 2).saturating_add(Mark(length).width())
}

// The byte after the header of a packed array or a table; after its first two marks, where the rows of others in it are not held.
fn header_end(message: Message, r: Row) -> usize {
    if message.is_cut(r) {
        return r.first as usize + 2;
    }
    r.payload as usize
}

// The byte after what a row has at its start.
fn start_end(message: Message, r: Row) -> usize {
    match kind_of(r) {
        Some(Kind::Array | Kind::Object) => r.payload as usize,
        Some(Kind::Packed | Kind::Table) => header_end(message, r),
        Some(Kind::Leaf) => leaf_end(message, r),
        Some(Kind::SchemaRecord | Kind::FixedArray) => r.first as usize + 1,
        _ => payload_end(r),
    }
}

// The byte after what a row has at its start, or after its slots, if they are known.
fn reach(message: Message, r: Row) -> usize {
    if has_slots(r) && !message.is_cut(r) {
        return payload_end(r);
    }
    start_end(message, r)
}

// Whether a container has a closing mark: one that is counted, as the byte after its mark says, has none.
fn has_closing_mark(message: Message, r: Row) -> bool {
    let second = message.byte(r.first as usize + 1);
    !has_slots(r) && !matches!(second, Some(Mark::COUNT | Mark::TYPE))
}

// The byte after a container.
fn container_end(message: Message, r: Row) -> Option<usize> {
    let marks = usize::from(has_closing_mark(message, r));
    is_container(r).then_some(payload_end(r).saturating_add(marks))
}

// Whether a byte is among the slots of a row.
fn is_among_slots(r: Row, at: usize) -> bool {
    has_slots(r) && r.payload as usize <= at && at < payload_end(r)
}

impl<'a> Walk<'a> {
    // The way's start.
    pub fn new(message: Message<'a>) -> Walk<'a>
        ensures message { result.message ≡ message.entry }
        ensures start { result.byte ≡ 0 }
    {
        Walk {
            message,
            byte: 0,
            row: 0,
            open: [Open { row: 0, end: None }; 64],
            depth: 0,
            reached: 0,
        }
    }

    // The innermost open row; none outside the value.
    fn innermost(&self) -> Option<Open> {
        self.open[..self.depth].last().copied()
    }

    // Opens the row that starts at the byte, if one does.
    fn open_row(&mut self)
        ensures byte { self.new.byte ≡ self.old.byte }
        ensures message { self.new.message ≡ self.old.message }
    {
        let row = self.row;
        let r = self.message.row(row);
        if self.message.held() <= row || r.first as usize != self.byte {
            return;
        }
        self.row = row + 1;
        self.reached = self.reached.max(reach(self.message, r));
        if self.depth < 64 {
            self.open[self.depth] = Open {
                row,
                end: container_end(self.message, r),
            };
            self.depth += 1;
        }
    }

    // How many of the open rows, from the innermost on, are containers that end at the byte.
    fn ended(&self) -> usize {
        let open = self.open[..self.depth].iter().rev();
        open.take_while(|open| open.end.is_some_and(|end| end <= self.byte))
            .count()
    }

    // Closes the innermost open row, if it holds no others or its bracket has passed, and the containers that end at the byte.
    fn close_rows(&mut self, part: Part)
        ensures byte { self.new.byte ≡ self.old.byte }
        ensures message { self.new.message ≡ self.old.message }
    {
        let closes = match part {
            Part::Start(row) => !holds_others(self.message.row(row)),
            Part::Close(row) => !is_container(self.message.row(row)),
            _ => false,
        };
        if closes {
            self.depth = self.depth.saturating_sub(1);
        }
        self.depth = self.depth.saturating_sub(self.ended());
    }

    // Whether the way has come to what belongs to no row that is held.
    fn is_past(&self) -> bool {
        self.message.is_cut(self.message.row(0))
            && self.message.held() <= self.row
            && self.reached <= self.byte
    }

    // The part that the byte belongs to.
    fn part(&self) -> Part {
        let Some(Open { row, .. }) = self.innermost() else {
            return Part::NoOps;
        };
        let r = self.message.row(row);
        if r.first as usize == self.byte {
            return Part::Start(row);
        }
        if is_among_slots(r, self.byte) {
            return Part::Slots(row);
        }
        if has_slots(r) {
            return Part::Header(row);
        }
        if self.message.byte(self.byte) == Some(Mark::NOOP) {
            return Part::NoOps;
        }
        Part::Close(row)
    }

    // The byte after the no-ops that stand at the byte.
    fn noops_end(&self) -> usize {
        let rest = self.message.bytes.get(self.byte..).unwrap_or(&[]);
        let noops = rest.iter().take_while(|b| **b == Mark::NOOP);
        self.byte.saturating_add(noops.count())
    }

    // The first byte of the next row to be opened; none after the last.
    fn next_first(&self) -> Option<usize> {
        if self.row < self.message.held() {
            return Some(self.message.row(self.row).first as usize);
        }
        None
    }

    // The byte after those that belong to a part.
    fn part_end(&self, part: Part) -> usize {
        match part {
            Part::Start(row) => start_end(self.message, self.message.row(row)),
            Part::Header(row) => self.message.row(row).payload as usize,
            Part::Slots(row) => payload_end(self.message.row(row)),
            Part::Close(_) => self.byte.saturating_add(1),
            Part::NoOps => self.noops_end(),
            Part::Unheld => self.message.bytes.len(),
        }
    }

    // The run at the byte: it ends before the next row, and has a byte.
    fn run(&self, part: Part) -> Run
        requires { self.now.byte < length self.now.message.bytes.now }
        ensures from { result.from ≡ self.now.byte }
        ensures some { self.now.byte < result.end }
        ensures inside { result.end ≤ length self.now.message.bytes.now }
    {
        let next = self.next_first().unwrap_or(usize::MAX);
        let last = next.min(self.message.bytes.len());
        Run {
            part,
            from: self.byte,
            end: self.part_end(part).min(last).max(self.byte + 1),
        }
    }
}

impl<'a> Iterator for Walk<'a> {
    type Item = Run;

    ghost use Rattle.navigate.specs.Runs.{Follows};

    // Each run begins where the last one ended, and has a byte, up to the message's last byte.
    ghost next_gives = { λ s r t. Follows s.message.bytes.now s.byte r t.byte };

    ghost remaining = { λ s. at_most (length s.message.bytes.now - s.byte) };

    fn next(&mut self) -> Option<Run> {
        if self.message.bytes.len() <= self.byte {
            return None;
        }
        if self.is_past() {
            let rest = self.run(Part::Unheld);
            self.byte = rest.end;
            return Some(rest);
        }
        self.open_row();
        let run = self.run(self.part());
        self.byte = run.end;
        self.close_rows(run.part);
        Some(run)
    }
}
