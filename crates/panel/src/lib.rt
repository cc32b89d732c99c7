// The panel's calls: what they answer from the message only, each as one 64-bit number. specs/Layout.antt says how its parts lie.
#![tactic(auto)]

ghost use Rattle.std.specs.Prelude.{◌≡◌, ◌<◌, ◌^◌};
ghost use Rattle.format.specs.Answers.{first_and_width};
ghost use Rattle.format.specs.Panel.{number_and_place, rows_needed, panel_slot};
ghost use Rattle.panel.specs.Layout.{parts_of, number_and_place_parts, rows_parts, slot_parts};

use format::answers::{Edition, Span};
use format::refusals::{Refusal, Refused};
use records::slot::slot_in;
use seek::table_at;

// Number, place or first byte, and rows or width in one number.
fn packed(number: u32, place: usize, amount: usize) -> u64
    requires { (number < 2 ^ 8) × (place < 2 ^ 24) × (amount < 2 ^ 32) }
    ensures { parts_of result ≡ record { number = number; place = place; amount = amount } }
{
    number as u64 + place as u64 * 0x100 + amount as u64 * 0x1_0000_0000
}

// Number and place.
pub fn number_and_place(message: &[u8]) -> u64
    ensures { parts_of result ≡ number_and_place_parts (number_and_place message.now) }
{
    match reader::message::rows_needed(Edition::New, message) {
        Err(Refused(refusal, place)) => packed(refusal.number(), place, 0),
        Ok(_) => packed(0, 0, 0),
    }
}

// Number and place, and the rows needed.
pub fn rows_needed(message: &[u8]) -> u64
    ensures { parts_of result ≡ rows_parts (rows_needed message.now) }
{
    match reader::message::rows_needed(Edition::New, message) {
        Err(Refused(refused, at)) => packed(refused.number(), at, 0),
        Ok(rows) => packed(0, 0, rows),
    }
}

// The slot of a table, in message order, a leaf, in schema order, and a record, in storage order, all from 0.
pub fn slot(message: &[u8], table: usize, leaf: usize, number: usize) -> u64
    ensures { parts_of result ≡ slot_parts (first_and_width (panel_slot message.now table leaf number)) }
{
    if let Err(Refused(refusal, _)) = reader::message::rows_needed(Edition::New, message) {
        return packed(refusal.number(), 0, 0);
    }
    let Some(found) = table_at(message, table) else {
        return packed(Refusal::NotThere.number(), 0, 0);
    };
    match slot_in(message, found.brace, found.first, leaf, number) {
        Err(refusal) => packed(refusal.number(), 0, 0),
        Ok(Span { first, width }) => packed(0, first, width),
    }
}
