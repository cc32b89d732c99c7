// What is open while a message is written: arrays and objects, or the records and fixed arrays of a schema.
use crate::brackets::Bracket;

// The most that may be open; no message has so much.
const MOST: usize = 40;

// One that is open: its bracket, whether a count stands in place of its closing mark, and the members left to write.
#[derive(Clone, Copy)]
pub struct Open {
    pub bracket: Bracket,
    pub counted: bool,
    pub left: u32,
}

// None that is open.
const NONE: Open = Open {
    bracket: Bracket::Square,
    counted: false,
    left: 0,
};

// Those that are open, the innermost last, and how many are to be opened before anything else. There is no heap, so the list is fixed
// and its length stands beside it.
#[derive(Drop)]
pub struct Nest {
    open: [Open; MOST],
    depth: usize,
    wanted: u32,
}

impl Nest {
    // None open, and so many to be opened.
    pub fn new(wanted: u32) -> Nest {
        Nest {
            open: [NONE; MOST],
            depth: 0,
            wanted,
        }
    }

    // How many are open.
    pub fn depth(&self) -> usize {
        self.depth
    }

    // Whether more are to be opened before anything else.
    pub fn is_wanted(&self) -> bool {
        0 < self.wanted
    }

    // Opens one.
    pub fn push(&mut self, opened: Open) {
        let depth = self.depth;
        if let Some(next) = self.open.get_mut(depth) {
            *next = opened;
        }
        self.depth = depth.saturating_add(1);
        self.wanted = self.wanted.saturating_sub(1);
    }

    // The innermost.
    pub fn innermost(&self) -> Open {
        let at = self.depth.saturating_sub(1);
        self.open.get(at).copied().unwrap_or(NONE)
    }

    // Takes one off the members of the innermost that are left to write.
    pub fn take_member(&mut self) {
        let at = self.depth.saturating_sub(1);
        if let Some(innermost) = self.open.get_mut(at) {
            innermost.left = innermost.left.saturating_sub(1);
        }
    }

    // Closes the innermost.
    pub fn pop(&mut self) {
        self.depth = self.depth.saturating_sub(1);
    }
}
