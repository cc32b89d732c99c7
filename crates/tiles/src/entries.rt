// The list of a message's slots.
ghost use Rattle.std.specs.Prelude.{◌≤◌};

use memory::filled;

// The entries that the list has room for.
const ENTRIES: usize = 1024;

// A slot: the row of its packed array or table, the row of its leaf (of a packed array the same row), the number of its element or
// record, its first byte, its width.
#[derive(Clone, Copy, Default)]
pub struct Entry {
    pub row: usize,
    pub leaf: usize,
    pub number: usize,
    pub first: usize,
    pub width: usize,
}

// The list: its first entries are in use.
#[derive(Drop)]
pub struct List {
    pub entries: [Entry; ENTRIES],
    pub len: usize,
    ghost within: { len ≤ 1024 },
}

impl List {
    // A list with no entry in use.
    pub fn new() -> List {
        List {
            entries: filled(Entry::default()),
            len: 0,
        }
    }

    // Takes every entry out of use.
    pub fn clear(&mut self) {
        self.len = 0;
    }

    // How many entries more there is room for.
    pub fn room(&self) -> usize {
        ENTRIES - self.len
    }

    // Adds an entry where there is room.
    pub fn push(&mut self, entry: Entry) {
        if self.len < ENTRIES {
            self.entries[self.len] = entry;
            self.len += 1;
        }
    }

    // The entries in use.
    pub fn as_slice(&self) -> &[Entry] {
        &self.entries[..self.len]
    }
}
