// What the program counts.
use std::fmt;

// The numbers of the summary.
#[derive(Clone, Copy, Default)]
pub struct Tally {
    pub messages: u64,
    pub accepted: u64,
    pub packed: u64,
    pub tables: u64,
    pub skipped: u64,
    pub asked: u64,
    pub outside: u64,
    pub read: u64,
    pub changes: u64,
    pub kept: u64,
    pub compared: u64,
    pub faults: u64,
    pub checksum: u64,
}

// One more.
pub fn count(n: &mut u64) {
    *n = n.saturating_add(1);
}

impl Tally {
    // A fault, unless what is told holds.
    pub fn expect(&mut self, holds: bool) {
        if !holds {
            count(&mut self.faults);
        }
    }

    // Takes a number into the checksum.
    pub fn mix(&mut self, x: usize) {
        self.checksum = self.checksum.rotate_left(5) ^ x as u64;
    }
}

impl fmt::Display for Tally {
    // The summary: a line for each number.
    fn fmt<W: fmt::Write>(&self, f: &mut fmt::Formatter<W>) -> fmt::Result {
        writeln!(f, "messages: {}", self.messages)?;
        writeln!(f, "accepted: {}", self.accepted)?;
        writeln!(f, "packed arrays: {}", self.packed)?;
        writeln!(f, "tables: {}", self.tables)?;
        writeln!(f, "skipped for too many slots: {}", self.skipped)?;
        writeln!(f, "addresses asked: {}", self.asked)?;
        writeln!(f, "outside addresses asked: {}", self.outside)?;
        writeln!(f, "values and texts read: {}", self.read)?;
        writeln!(f, "changes tried: {}", self.changes)?;
        writeln!(f, "changes accepted: {}", self.kept)?;
        writeln!(f, "slots compared: {}", self.compared)?;
        writeln!(f, "checksum: {}", self.checksum)?;
        writeln!(f, "faults: {}", self.faults)
    }
}
