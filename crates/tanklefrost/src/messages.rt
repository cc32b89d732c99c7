// The calls over a message: the panel's, with the message only, reading to rows, and rewriting.
ghost use Rattle.std.specs.Prelude.{◌≡◌, length};
ghost use Rattle.format.specs.Rows.{rows_in};
ghost use Rattle.format.specs.Read.{rows_used, words_after};
ghost use Rattle.format.specs.HouseForm.{bytes_written, output_after, rewrite_words_after};
ghost use Rattle.format.specs.Panel.{number_and_place, rows_needed, panel_slot};
ghost use Rattle.format.specs.Answers.{first_and_width};
ghost use Rattle.panel.specs.Layout.{parts_of, number_and_place_parts, rows_parts, slot_parts};
ghost use Rattle.structs.specs.Answers.{reading_for};
ghost use Rattle.structs.specs.Editions.{read_numbered, rewrite_numbered};

use format::refusals::{Refusal, Refused};
use rows::clear;
use structs::answers::Reading;
use structs::editions::edition_of;

// The answer where the number names no edition.
const NO_EDITION: Result<usize, Refused> = Err(Refused(Refusal::RowsDontFit, 0));

// The panel: number and place.
#[unsafe(no_mangle)]
pub extern "C" fn tanklefrost_number_and_place(message: &[u8]) -> u64
    ensures { parts_of result ≡ number_and_place_parts (number_and_place message.now) }
{
    panel::number_and_place(message)
}

// The panel: number and place, and the rows needed.
#[unsafe(no_mangle)]
pub extern "C" fn tanklefrost_rows_needed(message: &[u8]) -> u64
    ensures { parts_of result ≡ rows_parts (rows_needed message.now) }
{
    panel::rows_needed(message)
}

// The panel: a slot's first byte and width by table, leaf and record.
#[unsafe(no_mangle)]
pub extern "C" fn tanklefrost_slot(message: &[u8], table: usize, leaf: usize, number: usize) -> u64
    ensures { parts_of result ≡ slot_parts (first_and_width (panel_slot message.now table leaf number)) }
{
    panel::slot(message, table, leaf, number)
}

// Reads a message into lent rows by an edition's number; a number that names none is 12. What isn't filled is zero, on refusal all.
#[unsafe(no_mangle)]
pub extern "C" fn tanklefrost_read(edition: u32, message: &[u8], rows: &mut [u32]) -> Reading
    ensures answer { result ≡ reading_for (rows_used (read_numbered edition message.now rows.old)) }
    ensures words { rows.new ≡ words_after (length rows.old) (read_numbered edition message.now rows.old) }
{
    let Some(edition) = edition_of(edition) else {
        clear(rows);
        return Reading::from(NO_EDITION);
    };
    Reading::from(reader::message::read(edition, message, rows))
}

// Rewrites a message to house form by an edition's number; a number that names none is 12. The rows then hold the message's rows. What
// isn't filled of rows and output is zero, on refusal all.
#[unsafe(no_mangle)]
pub extern "C" fn tanklefrost_rewrite(
    edition: u32,
    message: &[u8],
    rows: &mut [u32],
    output: &mut [u8],
) -> Reading
    ensures answer { result ≡ reading_for (bytes_written (rewrite_numbered edition message.now (rows_in rows.old) (length output.old))) }
    ensures output { output.new ≡ output_after (length output.old) (rewrite_numbered edition message.now (rows_in rows.old) (length output.old)) }
    ensures words { rows.new ≡ rewrite_words_after (length rows.old) (read_numbered edition message.now rows.old) (rewrite_numbered edition message.now (rows_in rows.old) (length output.old)) }
{
    let Some(edition) = edition_of(edition) else {
        clear(rows);
        clear(output);
        return Reading::from(NO_EDITION);
    };
    Reading::from(rewriter::message::rewrite(edition, message, rows, output))
}
