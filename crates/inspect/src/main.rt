// Shows BJData messages to a person: the verdict, the rows, the slots, the bytes, one address, a path of names, or the house form.
#![tactic(auto)]

mod buffers;
mod files;
mod messages;

use buffers::{BLOCK, HOUSE, MESSAGE, WORDS, zeros};
use files::Program;
use wording::block::Block;

fn main(rt: HostRuntime) {
    let mut message = zeros::<u8, MESSAGE>();
    let mut rows = zeros::<u32, WORDS>();
    let mut house = zeros::<u8, HOUSE>();
    let mut block = zeros::<u8, BLOCK>();
    let out = Block::new(&mut block, &rt);
    let mut program = Program {
        rt: &rt,
        rows: &mut rows,
        house: &mut house,
        out,
    };
    program.run(&mut message);
}
