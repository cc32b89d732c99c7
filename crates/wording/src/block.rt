// A block of output: what is put into it stands in lent room until the room is full; then it is written out, and the block goes on empty.
//
//     write!(out, "row {row}: {}", kind(n));   formatted text; it answers nothing
//     out.text(b"..");                         bytes as they are
//     out.byte(b);
//     out.repeated(b, times);
//     out.spaces(times);
//     out.line();                              the end of a line
//     out.right(n, width);                     a number at the end of a column
//     out.flush();                             writes out what stands in the block
//     out.complain();                          the same, to standard error
//     out.fail(why);                           says on standard error that what the block names failed, and why
//     out.direct(bytes);                       writes bytes to standard output, past the block
//
// After `flush`, `complain` and `fail` the block is empty. `names` has the words for kinds, marks, ids and refusals, and the ending of a plural.
ghost use Rattle.std.specs.Prelude.{◌≤◌, length};

use std::fmt::Display;
use std::io::{Stderr, Stdout, Write};
use std::{fmt, io};

// The room for a block's bytes, how many of them stand in it, the streams that it is written to, and whether a write failed so far.
#[derive(Drop)]
pub struct Block<'a> {
    room: &'a mut [u8],
    filled: usize,
    output: Stdout,
    errors: Stderr,
    failed: bool,
}

impl<'a> Block<'a> {
    // An empty block.
    pub fn new(room: &'a mut [u8], rt: &HostRuntime) -> Self {
        Block {
            room,
            filled: 0,
            output: rt.stdout(),
            errors: rt.stderr(),
            failed: false,
        }
    }

    // What stands in the block.
    fn shown(&self) -> &[u8] {
        &self.room[..self.filled.min(self.room.len())]
    }

    // Says, the first time, that a write failed.
    fn note(&mut self, write: io::Result<()>) {
        if let Err(why) = write {
            if !self.failed {
                say(self.errors, b"standard output", why);
            }
            self.failed = true;
        }
    }

    // Writes bytes to standard output as they are.
    pub fn direct(&mut self, bytes: &[u8]) {
        let write = self.output.write_all(bytes);
        self.note(write);
    }

    // Writes out what stands in the block.
    pub fn flush(&mut self) {
        let write = self.output.write_all(self.shown());
        self.filled = 0;
        self.note(write);
    }

    // Writes what stands in the block to standard error.
    pub fn complain(&mut self) {
        let _ = self.errors.write_all(self.shown());
        self.filled = 0;
    }

    // Says that what the block names failed, and why.
    pub fn fail(&mut self, why: io::Error) {
        say(self.errors, self.shown(), why);
        self.filled = 0;
    }

    // A byte.
    pub fn byte(&mut self, b: u8) {
        if self.room.len() <= self.filled {
            self.flush();
        }
        if self.filled < self.room.len() {
            self.room[self.filled] = b;
            self.filled += 1;
        }
    }

    // Bytes as they are.
    pub fn text(&mut self, bytes: &[u8]) {
        for &b in bytes {
            self.byte(b);
        }
    }

    // The same byte, so many times.
    pub fn repeated(&mut self, b: u8, times: usize) {
        for _ in 0..times {
            self.byte(b);
        }
    }

    // So many spaces.
    pub fn spaces(&mut self, times: usize) {
        self.repeated(b' ', times);
    }

    // The end of a line.
    pub fn line(&mut self) {
        self.byte(b'\n');
    }

    // A number with spaces before it, up to a width; one space before a number that fills it.
    pub fn right(&mut self, n: usize, width: usize) {
        let rest = width.saturating_sub(1);
        write!(self, " {n:>rest$}");
    }

    // What `write!` puts.
    pub fn write_fmt<D: Display + Drop>(&mut self, value: D) {
        let _ = fmt::Write::write(self, value);
    }
}

impl<'a> fmt::Write for Block<'a> {
    fn write_str(&mut self, s: &str) -> fmt::Result {
        self.text(s.as_bytes());
        Ok(())
    }
}

// The text of an error, put into its room, without the system's number for it, which stands after it.
fn reason(why: io::Error, room: &mut [u8; 96]) -> &[u8]
    ensures { length result.now ≤ 96 }
{
    let mut rest: &mut [u8] = room;
    let _ = write!(rest, "{why}");
    let n = 96usize.saturating_sub(rest.len());
    match room[..n]
        .windows(2)
        .position(|pair| pair == b" (".as_slice())
    {
        Some(end) => &room[..end],
        None => &room[..n],
    }
}

// Says what failed and why: a line on standard error.
fn say(errors: Stderr, what: &[u8], why: io::Error) {
    let _ = errors.write_all(what);
    let _ = errors.write_all(b": ");
    let _ = errors.write_all(reason(why, &mut [0; 96]));
    let _ = errors.write_all(b"\n");
}
