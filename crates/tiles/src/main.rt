// Asks for every slot of messages made by chance, and for addresses beside them; changes slots, and compares all others.
#![tactic(auto)]

mod accepted;
mod changes;
mod entries;
mod messages;
mod order;
mod outside;
mod payload;
mod readings;
mod same;
mod tally;
mod tiling;

use messages::Lent;
use std::io;
use tally::Tally;

fn main(rt: HostRuntime) -> io::Result<()> {
    let mut lent = Lent::new();
    let mut t = Tally::default();
    messages::all(&mut lent, &mut t);
    print!(rt; "{t}")
}
