// What is left of rows and output once a message was written.
ghost use Rattle.std.specs.Prelude.{◌≡◌};
ghost use Rattle.format.specs.Answers.{answered};
ghost use Rattle.forests.specs.Settled.{fits_in, Settled};

use format::limits::LIMIT;
use format::refusals::{Refusal, Refused};
use rows::{clear, clear_from};

// Whether so many bytes fit the room, and the limit.
fn fits(n: usize, room: usize) -> bool
    ensures { result ≡ fits_in room n }
{
    if room < n {
        return false;
    }
    n <= LIMIT as usize
}

// The answer once so many bytes were put: these, and zeros after them; or 11, with rows and output cleared.
pub fn settle(rows: &mut [u32], output: &mut [u8], end: usize) -> Result<usize, Refused>
    ensures { Settled end rows.old output.old (answered result) rows.new output.new }
{
    if fits(end, output.len()) {
        clear_from(output, end);
        return Ok(end);
    }
    clear(rows);
    clear(output);
    Err(Refused(Refusal::OutputTooLong, 0))
}
