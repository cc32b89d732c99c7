// What the programs write.
use std::io;

// Three numbers, with a space between two.
pub fn three(rt: &impl Print, a: u64, b: u64, c: u64) -> io::Result<()> {
    print!(rt; "{a} {b} {c}")
}
