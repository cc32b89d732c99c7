// An accepted message, as it is asked for.
use crate::{address, bytes};
use describe::{names, tree, verdict};
use navigate::message::Message;
use options::arguments::{Asked, word};
use slot_views::slot_lists;
use std::rt::Env;
use wording::block::Block;

// What is asked for of the rows, the slots and the bytes; the rows where nothing is asked for by name.
fn views(message: Message, asked: &Asked, out: &mut Block) {
    if asked.rows || asked.is_plain() {
        tree::some(message, 0, message.needed(), out);
    }
    if asked.slots {
        slot_lists::every(message, out);
    }
    if asked.hex {
        bytes::all(message, out);
    }
    if let Some(address) = asked.address {
        address::shown(message, &address, asked.color, out);
    }
}

// An accepted message; the table holds the first of its rows, or all.
pub fn shown(rt: &impl Env, message: &[u8], rows: &mut [u32], asked: &Asked, out: &mut Block) {
    let whole = Message {
        bytes: message,
        rows,
    };
    verdict::accepted(whole.needed(), whole.held(), asked.color, out);
    views(whole, asked, out);
    if let Some(name) = asked.name {
        names::shown(message, rows, word(rt, name, &mut [0; 4096]), out);
    }
}
