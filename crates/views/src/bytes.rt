// All bytes of an accepted message, each with the token or the slot that it belongs to.
use describe::row;
use navigate::message::Message;
use navigate::room;
use navigate::walk::{Part, Run, Walk};
use show::dump;
use slot_views::slot_lists;
use wording::block::Block;
use wording::names::kind;

// So many no-ops.
fn noops(count: usize, out: &mut Block) {
    if count == 1 {
        out.text(b"no-op");
    } else {
        write!(out, "{count} no-ops");
    }
}

// The bytes of a run, with what they belong to beside them.
fn beside<F: FnOnce(&mut Block)>(message: Message, run: Run, out: &mut Block, owner: F)
    requires { F.IsAlwaysCallable owner }
{
    dump::head(out, message.bytes, run.from, run.end);
    owner(out);
    out.line();
    dump::rest(out, message.bytes, run.from, run.end);
}

// The bytes that belong to no row that is held, as they are.
fn unheld(message: Message, run: Run, out: &mut Block) {
    let from = run.from;
    writeln!(
        out,
        "the rows held end at byte {from}; the bytes from there on:"
    );
    dump::lines(out, message.bytes, from, run.end);
}

// A run, and what it belongs to.
fn shown(message: Message, run: Run, room: &mut usize, out: &mut Block) {
    match run.part {
        Part::Start(row) => beside(message, run, out, |out| row::numbered(message, row, out)),
        Part::Header(row) => {
            let kind = kind(message.row(row).kind as usize);
            beside(message, run, out, |out| {
                write!(out, "row {row}: {kind}, rest of its header")
            });
        }
        Part::Close(row) => {
            let kind = kind(message.row(row).kind as usize);
            beside(
                message,
                run,
                out,
                |out| write!(out, "row {row}: {kind}, end"),
            );
        }
        Part::NoOps => {
            let count = run.end.saturating_sub(run.from);
            beside(message, run, out, |out| noops(count, out));
        }
        Part::Slots(row) => slot_lists::by_bytes(message, row, run.from, room, out),
        Part::Unheld => unheld(message, run, out),
    }
}

// All bytes; those of rows that are not held as they are.
pub fn all(message: Message, out: &mut Block) {
    out.text(b"    byte  hex                                              belongs to\n");
    let mut room = room::all(message);
    for run in Walk::new(message) {
        shown(message, run, &mut room, out);
    }
}
