// The machine: what it knows beside its frames, and how it refuses.
use crate::frames::{Frame, MESSAGE, Stack, Task};
use crate::numbers::number;
use crate::refusals::{Reason, Refusal};
use crate::table::{Entry, Order, Rows};

// A machine that reads a message into rows.
#[derive(Drop)]
pub struct Machine<'m, 'r> {
    pub message: &'m [u8],
    pub rows: Rows<'r>,
    pub stack: Stack,
    // Whether the edition has extensions.
    pub extensions: bool,
    // The next place, the next row, and how many brackets of a schema are open.
    pub at: u32,
    pub row: u32,
    pub levels: u32,
    // Of the header that is being read: the bytes of its record so far, the product of its dimensions so far, their order.
    pub offset: u32,
    pub product: u32,
    pub order: Order,
}

impl<'m, 'r> Machine<'m, 'r> {
    // Before the first byte.
    pub fn new(message: &'m [u8], words: &'r mut [u32], extensions: bool) -> Machine<'m, 'r> {
        Machine {
            message,
            rows: Rows::new(words),
            stack: Stack::new(),
            extensions,
            at: 0,
            row: 0,
            levels: 0,
            offset: 0,
            product: 0,
            order: Order::Without,
        }
    }

    // The message's length.
    pub fn end(&self) -> u32 {
        number(self.message.len())
    }

    // The byte that stands here; past the end 0, which is no mark.
    pub fn byte(&self) -> u8 {
        self.message.get(self.at as usize).copied().unwrap_or(0)
    }

    // The bytes between two places.
    pub fn between(&self, from: u32, end: u32) -> &'m [u8] {
        self.message
            .get(from as usize..end as usize)
            .unwrap_or_default()
    }

    // Past so many bytes more.
    pub fn skip(&mut self, bytes: u32) {
        self.at = self.at.saturating_add(bytes);
    }

    // Past every `N` that stands here.
    pub fn skip_noops(&mut self) {
        let at = self.at;
        let end = self.end();
        let noops = self
            .between(at, end)
            .iter()
            .take_while(|b| **b == b'N')
            .count();
        self.skip(number(noops));
    }

    // Past so many bytes, which are given; the message may end too early.
    pub fn take(&mut self, bytes: u32) -> Result<&'m [u8], Refusal> {
        let start = self.at;
        self.skip(bytes);
        let next = self.at;
        if self.end() < next {
            return Err(self.early());
        }
        Ok(self.between(start, next))
    }

    // Refused, since the message ends too early.
    pub fn early(&self) -> Refusal {
        Refusal::new(Reason::Early, self.end())
    }

    // Refused at the byte that stands here, or since none does.
    pub fn unexpected(&self) -> Refusal {
        if self.at < self.end() {
            Refusal::new(Reason::Unexpected, self.at)
        } else {
            self.early()
        }
    }

    // Refused, if no row is left for the token that begins at a place.
    pub fn need_row(&self, first: u32) -> Result<(), Refusal> {
        if self.row < self.rows.lent() {
            Ok(())
        } else {
            Err(Refusal::new(Reason::Rows, first))
        }
    }

    // Stores the row of a token that stands in what is open, and has been read.
    pub fn store(&mut self, row: u32, entry: Entry) {
        let place = self.stack.place();
        self.rows.store(row, entry, self.row, place);
    }

    // Stores a token that holds no others in the next row.
    pub fn add(&mut self, entry: Entry) {
        let row = self.row;
        self.row = row.saturating_add(1);
        self.store(row, entry);
    }

    // Opens a frame for what begins here, at its opening mark, and goes past that.
    pub fn open(&mut self, frame: Frame) {
        self.stack.push(frame);
        self.skip(1);
    }

    // Stores a frame in place of the innermost, and goes past the mark that stands here.
    pub fn pass(&mut self, frame: Frame) {
        self.stack.keep(frame);
        self.skip(1);
    }

    // A frame for what begins here.
    pub fn frame(&self, task: Task, mark: u8) -> Frame {
        Frame {
            task,
            row: self.row,
            mark,
            first: self.at,
            ..MESSAGE
        }
    }
}
