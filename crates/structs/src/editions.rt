// The editions as a C caller names them, by a number.
ghost use Rattle.std.specs.Prelude.{◌≡◌};
ghost use Rattle.structs.specs.Editions.{grammar_numbered, grammar_named};

use format::answers::Edition;

// The editions' numbers. 0 is none, so that a field that was forgotten is noticed.
const OLD: u32 = 1;

const NEW: u32 = 2;

// The edition that a number names, or none.
pub fn edition_of(number: u32) -> Option<Edition>
    ensures { grammar_named result ≡ grammar_numbered number }
{
    match number {
        OLD => Some(Edition::Old),
        NEW => Some(Edition::New),
        _ => None,
    }
}
