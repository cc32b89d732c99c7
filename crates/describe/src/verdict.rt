// Accepted or refused, and why.
use format::answers::Edition;
use format::limits::LIMIT;
use format::marks::Mark;
use format::refusals::{Refusal, Refused};
use show::dump::Color;
use show::{dump, scalars};
use wording::block::Block;
use wording::names::plural;

// Why a message is refused: by which edition, the refusal and its place; and whether this is shown with colour.
#[derive(Clone, Copy)]
pub struct Rejection {
    pub edition: Edition,
    pub why: Refused,
    pub paint: bool,
}

// How many bytes a message has; more than the limit are not counted.
pub fn size(message: &[u8], out: &mut Block) {
    let n = message.len();
    if n <= LIMIT as usize {
        write!(out, ": {n} byte{}, ", plural(n));
    } else {
        write!(out, ": more than {LIMIT} bytes, ");
    }
}

// An accepted message has so many rows, of which so many are held.
pub fn accepted(needed: usize, held: usize, paint: bool, out: &mut Block) {
    Color::Green.begin(out, paint);
    out.text(b"accepted");
    Color::Plain.begin(out, paint);
    write!(out, ", {needed} row{}", plural(needed));
    if needed != held {
        write!(out, ", of which this program holds the first {held}");
    }
    out.line();
}

// What a message that has no row left, where so many are held, is with rows enough: it has so many, or is refused.
pub fn with_more(
    message: &[u8],
    held: usize,
    answer: Result<usize, Refused>,
    edition: Edition,
    out: &mut Block,
) {
    match answer {
        Ok(needed) => writeln!(
            out,
            "this program holds {held} rows; house form takes all of the message's {needed}"
        ),
        Err(why) => {
            write!(
                out,
                "this program holds {held} rows; with more the message is "
            );
            let rejection = Rejection {
                edition,
                why,
                paint: false,
            };
            rejection.reason(message, out);
            out.line();
        }
    }
}

impl Rejection {
    // Why the mark of an extension is not allowed: the edition that the message is read by has none, or has it begin values alone.
    fn by_edition(&self, out: &mut Block) {
        match self.edition {
            Edition::Old => out.text(b": the old edition has no extensions"),
            Edition::New => out.text(b": in the new edition `E` begins a value only"),
        }
    }

    // The number, its meaning and the place.
    fn reason(&self, message: &[u8], out: &mut Block) {
        let Refused(refusal, place) = self.why;
        scalars::refused(out, refusal);
        write!(out, ", at byte {place}");
        if refusal == Refusal::NotAllowed && message.get(place) == Some(&Mark::EXTENSION) {
            self.by_edition(out);
        }
    }

    // Why, and the bytes around the place.
    pub fn explained(&self, message: &[u8], out: &mut Block) {
        Color::Red.begin(out, self.paint);
        self.reason(message, out);
        Color::Plain.begin(out, self.paint);
        out.line();
        dump::around(out, message, self.why.1, 1, self.paint);
    }

    // The same, and all of its bytes, if asked for.
    pub fn shown(&self, message: &[u8], hex: bool, out: &mut Block) {
        self.explained(message, out);
        if hex {
            dump::lines(out, message, 0, message.len());
        }
    }

    // Whether a message is refused for want of rows.
    pub fn lacks_rows(&self) -> bool {
        self.why.0 == Refusal::NoRowLeft
    }
}
