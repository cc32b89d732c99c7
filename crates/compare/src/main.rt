// Runs the two readers on the same messages, which are made by chance and always the same, by both editions, and compares number, place,
// rows used and every lent word; also those of the two editions, which may differ only where the old one refuses an `E`. Lists where
// there is a difference, and what the messages were.
#![tactic(auto)]

mod answers;
mod buffers;
mod message_runs;
mod show;
mod tally;

use std::io;

fn main(rt: HostRuntime) -> io::Result<()> {
    let tally = message_runs::all(&rt)?;
    show::summary(&rt, &tally)
}
