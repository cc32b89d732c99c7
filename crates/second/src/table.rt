// The lent words, in rows.
use crate::numbers::number;

// The words of a row.
const ROW: usize = 10;

// What a token is. The kinds and their numbers are this reader's own, so that it shows where the first one's are wrong.
#[derive(Clone, Copy, PartialEq, Eq)]
pub enum Kind {
    Scalar,
    Text,
    HighPrecision,
    Key,
    Array,
    Object,
    Packed,
    Table,
    Leaf,
    Record,
    FixedArray,
    Dimension,
    Extension,
}

impl Kind {
    // The number that a row has for it.
    fn number(self) -> u32 {
        match self {
            Kind::Scalar => 1,
            Kind::Text => 2,
            Kind::HighPrecision => 3,
            Kind::Key => 4,
            Kind::Array => 5,
            Kind::Object => 6,
            Kind::Packed => 7,
            Kind::Table => 8,
            Kind::Leaf => 9,
            Kind::Record => 10,
            Kind::FixedArray => 11,
            Kind::Dimension => 12,
            Kind::Extension => 13,
        }
    }
}

// The order of dimensions: there are none, the first index is the slowest, or the fastest.
#[derive(Clone, Copy, PartialEq, Eq)]
pub enum Order {
    Without,
    Slowest,
    Fastest,
}

impl Order {
    // The number that a row has for it.
    fn number(self) -> u32 {
        match self {
            Order::Without => 0,
            Order::Slowest => 1,
            Order::Fastest => 2,
        }
    }
}

// What a row says of a token itself.
#[derive(Clone, Copy)]
pub struct Entry {
    pub kind: Kind,
    pub mark: u8,
    pub first: u32,
    pub payload: u32,
    pub length: u32,
    pub count: u32,
    pub order: Order,
}

// Where a token stands: its parent's row plus one, and its depth; both 0 for the outermost.
#[derive(Clone, Copy)]
pub struct Place {
    pub parent: u32,
    pub depth: u32,
}

// The lent rows.
#[derive(Drop)]
pub struct Rows<'a> {
    words: &'a mut [u32],
}

impl<'a> Rows<'a> {
    // Over lent words.
    pub fn new(words: &'a mut [u32]) -> Rows<'a> {
        Rows { words }
    }

    // How many rows are lent.
    pub fn lent(&self) -> u32 {
        number(self.words.len() / ROW)
    }

    // Stores a row; its link is the row after the token.
    pub fn store(&mut self, row: u32, entry: Entry, link: u32, place: Place) {
        let at = row as usize * ROW;
        if let Some(words) = self.words.get_mut(at..at + ROW) {
            words.copy_from_slice(&[
                entry.kind.number(),
                u32::from(entry.mark),
                entry.first,
                entry.payload,
                entry.length,
                entry.count,
                link,
                entry.order.number(),
                place.parent,
                place.depth,
            ]);
        }
    }

    // Zeros the words from a row on.
    pub fn clear(&mut self, row: u32) {
        if let Some(words) = self.words.get_mut(row as usize * ROW..) {
            words.fill(0);
        }
    }

    // A word of a row; 0 where there is none.
    fn word(&self, row: u32, k: u8) -> u32 {
        let at = row as usize * ROW + usize::from(k);
        self.words.get(at).copied().unwrap_or(0)
    }

    // The mark of a row of a leaf; none of another row.
    pub fn leaf_mark(&self, row: u32) -> Option<u8> {
        if self.word(row, 0) == Kind::Leaf.number() {
            u8::try_from(self.word(row, 1)).ok()
        } else {
            None
        }
    }

    // Of a row of a schema, where it begins in the record.
    pub fn offset(&self, row: u32) -> u32 {
        self.word(row, 3)
    }

    // Its bytes.
    pub fn bytes(&self, row: u32) -> u32 {
        self.word(row, 4)
    }

    // The row after it.
    pub fn link(&self, row: u32) -> u32 {
        self.word(row, 6)
    }
}
