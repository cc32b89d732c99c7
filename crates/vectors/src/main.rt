// Runs the reader on the messages of standard input, a line each, and lists what it answers.
#![tactic(auto)]

mod message_runs;
mod show;

use lines::input::read_full;
use memory::filled;
use std::io;

fn main(rt: HostRuntime) -> io::Result<()> {
    let mut text = filled::<u8, 393216>(0);
    let n = read_full(&mut rt.stdin(), &mut text)?;
    // A message may be over the limit too.
    let mut message = filled::<u8, 1048832>(0);
    message_runs::all(&rt, &text[..n], &mut message)
}
