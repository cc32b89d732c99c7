// Runs the calls of standard input, a line each, and lists what they answer.
#![tactic(auto)]

mod answers;
mod lists;
mod names;
mod runs;

use lines::input::read_full;
use memory::filled;
use std::io;

fn main(rt: HostRuntime) -> io::Result<()> {
    let mut text = filled::<u8, 1310720>(0);
    let n = read_full(&mut rt.stdin(), &mut text)?;
    runs::all(&rt, &text[..n])
}
