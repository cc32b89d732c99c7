// The content of a packed array: chars are looked at, and every other type has any bytes.
ghost use Rattle.std.specs.Prelude.{◌≡◌, true, ℕ, ◌+◌, ◌*◌, ◌≤◌, length};
ghost use Rattle.format.specs.Marks.{is_type, width};
ghost use Rattle.format.specs.Indexes.{below};
ghost use Rattle.format.specs.Storage.{elements};
ghost use Rattle.format.specs.Content.{contents};
ghost use Rattle.contents.specs.Answers.{checked_of};

use format::marks::Mark;

// The first wrong place of n elements under one of the thirteen marks, from `start` on; none where all are right.
pub fn packed_contents(message: &[u8], mark: u8, start: usize, n: usize) -> Option<usize>
    requires { (is_type mark ≡ true) × (start + n * width mark ≤ length message.now) }
    ensures { (row : ℕ) → checked_of result ≡ contents message.now start (elements row mark (below n)) }
{
    if mark != Mark::CHAR {
        return None;
    }
    for i in 0..n {
        let place = start + i;
        if 127 < message[place] {
            return Some(place);
        }
    }
    None
}
