// What the programs read.
ghost use Rattle.std.specs.Prelude.{◌≤◌, length, IfOk};

use std::io;
use std::io::Read;

// Reads until the buffer is full or the input ends; answers how many bytes were stored.
pub fn read_full(input: &mut impl Read, text: &mut [u8]) -> io::Result<usize>
    ensures { IfOk result (λ n. n ≤ length text.new) }
{
    let mut done: usize = 0;
    // No `for`: a read gives as many bytes as it will.
    while done < text.len() {
        let n = input.read(&mut text[done..])?;
        if n == 0 {
            return Ok(done);
        }
        done += n;
    }
    Ok(done)
}
