// `N`, which is skipped where a value, key or closing mark may begin.
ghost use Rattle.std.specs.Prelude.{◌≡◌, ◌≤◌, max, length};
ghost use Rattle.format.specs.Bytes.{skip as skip_in};

use format::marks::Mark;

// The first place from `at` on where no `N` stands.
pub fn skip(message: &[u8], at: usize) -> usize
    ensures is { result ≡ skip_in message.now at }
    ensures bounds { (at ≤ result) × (result ≤ max at (length message.now)) }
{
    let end = message.len();
    for i in at..end {
        if message[i] != Mark::NOOP {
            return i;
        }
    }
    at.max(end)
}
