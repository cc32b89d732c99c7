// The name of a leaf: the names that lead to it in its table's schema, with a slash between two, and places in fixed arrays.
use describe::row::text_at;
use navigate::message::Message;
use navigate::way::{Member, Way};
use wording::block::Block;

// The part of the name that a member at a depth adds: its key's name, or its place in the fixed array that holds it.
fn part(message: Message, depth: usize, member: Member, out: &mut Block) {
    let Some(key) = message.key(member.row) else {
        write!(out, "[{}]", member.place);
        return;
    };
    if 0 < depth {
        out.byte(b'/');
    }
    text_at(message, key, out);
}

// The name of the leaf that a way leads to.
pub fn of_leaf(message: Message, way: &Way, out: &mut Block) {
    for (depth, member) in way.members().iter().enumerate() {
        part(message, depth, *member, out);
    }
}
