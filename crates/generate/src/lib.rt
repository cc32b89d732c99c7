// Messages made by chance, the same each time: every construct of document 01 and request No. 1, messages with faults, edited ones, and marks
// without order. A message has a number, and a caller can have it again by that number.
#![tactic(auto)]

mod brackets;
mod dice;
mod edits;
mod extensions;
mod integers;
mod nest;
mod numbers;
mod numerals;
mod page;
pub mod pen;
mod schema;
mod tables;
mod token;
mod values;
mod vectors;

ghost use Rattle.std.specs.Prelude.{◌≤◌, length};

use dice::Dice;
use numbers::small;
use page::Page;

// The bytes that a buffer needs for a message not to be cut.
pub const ROOM: usize = 2048;

// The words of a row.
const ROW: usize = 10;

// Draws how deep the message's first values go: not at all most often, and to the limit; as a fault beyond.
fn depth(page: &mut Page<'_>) -> u32 {
    if page.draw(24) == 0 {
        return page.draw(33);
    }
    if page.slip(10) {
        return 32 + page.draw(5);
    }
    0
}

// Writes a message in order.
fn whole(page: &mut Page<'_>) {
    let depth = depth(page);
    values::whole(page, depth);
}

// Writes a message in order, and edits it once or twice.
fn edited(page: &mut Page<'_>) {
    whole(page);
    edits::edit(page);
    if page.draw(4) == 0 {
        edits::edit(page);
    }
}

// Writes a message: of sixteen, six in order, five with faults, two in order and edited, two with faults and edited, and one of marks
// without order.
fn write(page: &mut Page<'_>) {
    let choice = page.draw(16);
    page.faulty = choice % 2 == 1 && choice != 15;
    match choice {
        0..=10 => whole(page),
        11..=14 => edited(page),
        _ => edits::noise(page),
    }
}

// Writes message so and so into the buffer; answers its length.
pub fn message(number: u64, buffer: &mut [u8]) -> usize
    ensures { result ≤ length buffer.new }
{
    let mut page = Page::new(number, buffer);
    write(&mut page);
    let written = page.len();
    written.min(buffer.len())
}

// Draws how many rows are to be lent for a message of so many bytes: most often one for each byte; else few for the length, few, or
// about as many as the deepest messages need.
// All but the first are drawn in eighths of a row, so that each message keeps the rows that it had when a row was eight words.
fn rows(dice: &mut Dice, bytes: u32) -> u32 {
    match dice.draw(8) {
        0 => dice.draw(bytes.saturating_mul(3).saturating_add(9)) / 8,
        1 => dice.draw(330) / 8,
        2 => 33 + dice.draw(128) / 8,
        _ => bytes,
    }
}

// The words to be lent for message so and so, of a length: those of the rows, and up to nine more.
pub fn words(number: u64, length: usize) -> usize {
    let mut dice = Dice::new(number ^ 0x0F0F_0000_0000);
    let lent = rows(&mut dice, small(length)) as usize;
    lent * ROW + dice.draw(10) as usize
}
