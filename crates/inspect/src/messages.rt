// A message: shown, or written in house form.
use crate::buffers::ROWS;
use describe::verdict;
use describe::verdict::Rejection;
use format::refusals::Refused;
use options::arguments::Asked;
use reader::message::{read_front, rows_needed};
use rewriter::message::rewrite;
use show::quoted::plain;
use std::rt::Env;
use views::accepted;
use wording::block::Block;

// A refusal, as it is asked for.
fn rejection(asked: &Asked, why: Refused) -> Rejection {
    Rejection {
        edition: asked.read_by(),
        why,
        paint: asked.color,
    }
}

// A message, as it is asked for.
pub fn shown(rt: &impl Env, message: &[u8], rows: &mut [u32], asked: &Asked, out: &mut Block) {
    verdict::size(message, out);
    match read_front(asked.read_by(), message, rows) {
        Ok(_) => accepted::shown(rt, message, rows, asked, out),
        Err(why) => {
            rejection(asked, why).shown(message, asked.hex, out);
        }
    }
}

// Why a message is not rewritten; for want of rows, what it is with rows enough.
fn reason(message: &[u8], refusal: &Rejection, out: &mut Block) {
    refusal.explained(message, out);
    if refusal.lacks_rows() {
        let answer = rows_needed(refusal.edition, message);
        verdict::with_more(message, ROWS, answer, refusal.edition, out);
    }
}

// Says on standard error, under the message's name, why it is not rewritten.
fn not_rewritten(name: &[u8], message: &[u8], refusal: &Rejection, out: &mut Block) {
    plain(out, name);
    verdict::size(message, out);
    reason(message, refusal, out);
    out.complain();
}

// A message in house form; says where that fails.
pub fn rewritten(
    name: &[u8],
    message: &[u8],
    rows: &mut [u32],
    house: &mut [u8],
    asked: &Asked,
    out: &mut Block,
) {
    match rewrite(asked.read_by(), message, rows, house) {
        Ok(written) => out.direct(house.get(..written).unwrap_or(house)),
        Err(why) => {
            not_rewritten(name, message, &rejection(asked, why), out);
        }
    }
}
