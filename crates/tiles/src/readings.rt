// What the value and text calls answer in the slots of an accepted message.
use crate::accepted::Accepted;
use crate::entries::{Entry, List};
use crate::tally::{Tally, count};
use format::answers::Span;
use format::marks::Mark;
use format::refusals::Refusal;

// Whether an entry's slot is answered as its mark asks: a text slot has a text, which is the slot, and no value; any other the reverse.
fn is_read(accepted: Accepted<'_>, entry: Entry) -> bool {
    let valued = accepted.value(entry).is_ok();
    let text = accepted.text(entry);
    if accepted.mark(entry) == usize::from(Mark::TEXT) {
        let slot = Span {
            first: entry.first,
            width: entry.width,
        };
        return text == Ok(slot) && !valued;
    }
    text == Err(Refusal::RowsDontFit) && valued
}

// Reads the slot of each entry.
pub fn all(accepted: Accepted<'_>, list: &List, t: &mut Tally) {
    for entry in list.as_slice() {
        t.expect(is_read(accepted, *entry));
        count(&mut t.read);
    }
}
