// The words of a message: hex bytes, or hex bytes to be repeated.
ghost use Rattle.std.specs.Prelude.{◌≡◌, ◌==◌, ◌<◌, ◌≤◌, false, length, slice_index_or, IfSome, IsNone};
ghost use Rattle.std.specs.Char.{is_ascii_digit};

use crate::text::Text;

// What a hex digit stands for; nothing for any other byte.
fn digit(b: u8) -> Option<u8>
    ensures some { IfSome result (λ d. d < 16) }
    ensures none { IsNone result → is_ascii_digit b ≡ false }
{
    match b {
        b'0'..=b'9' => Some(b - b'0'),
        b'a'..=b'f' => Some(b - b'a' + 10),
        _ => None,
    }
}

// The byte that two hex digits stand for.
fn pair(high: u8, low: u8) -> u8 {
    match (digit(high), digit(low)) {
        (Some(h), Some(l)) => h * 16 + l,
        _ => 0,
    }
}

// Stores the bytes that hex digits stand for from a place on, as far as there is room; answers the place after the last.
fn once(hex: &[u8], message: &mut [u8], first: usize) -> usize {
    let bytes = hex.chunks_exact(2).map(|two| pair(two[0], two[1]));
    let room = message.get_mut(first..).unwrap_or(&mut []);
    for (place, b) in room.iter_mut().zip(bytes) {
        *place = b;
    }
    first.saturating_add(hex.len() / 2)
}

// The same, so many times: of one byte all at once, since a message at the limit is one byte repeated. Digits that stand for no byte store
// none, however often.
fn repeated(hex: &[u8], times: usize, message: &mut [u8], first: usize) -> usize {
    if let &[high, low] = hex {
        let end = first.saturating_add(times);
        let last = end.min(message.len());
        message
            .get_mut(first..last)
            .unwrap_or(&mut [])
            .fill(pair(high, low));
        return end;
    }
    if hex.len() < 2 {
        return first;
    }
    let mut n = first;
    for _ in 0..times {
        n = once(hex, message, n);
    }
    n
}

impl<'a> Text<'a> {
    // Takes the hex digits at the front, up to the first other byte.
    fn hex(&mut self) -> &'a [u8]
        ensures rest { length self.new.rest.now ≤ length self.old.rest.now }
        ensures stops { is_ascii_digit (slice_index_or self.new.rest.now 0 10) ≡ false }
    {
        let end = self.rest.iter().position(|b| digit(*b).is_none());
        self.take(end.unwrap_or(self.rest.len()))
    }

    // Takes how often a word is to be stored.
    fn times(&mut self) -> usize
        ensures rest { length self.new.rest.now ≤ length self.old.rest.now }
        ensures stops { is_ascii_digit (slice_index_or self.old.rest.now 0 10) ≡ false → is_ascii_digit (slice_index_or self.new.rest.now 0 10) ≡ false }
    {
        if self.byte() != b'*' {
            return 1;
        }
        self.skip();
        self.decimal()
    }

    // Takes one word, and stores it from a place of the message on; answers the place after its last byte.
    pub fn word(&mut self, message: &mut [u8], first: usize) -> usize
        ensures rest { length self.new.rest.now ≤ length self.old.rest.now }
        ensures stops { is_ascii_digit (slice_index_or self.new.rest.now 0 10) ≡ false }
    {
        let hex = self.hex();
        let times = self.times();
        repeated(hex, times, message, first)
    }

    // Takes the words that follow, each after a space, and stores them; answers the message's length.
    pub fn stored(&mut self, message: &mut [u8]) -> usize
        ensures rest { length self.new.rest.now ≤ length self.old.rest.now }
        ensures stops { (slice_index_or self.new.rest.now 0 10 == 32) ≡ false }
    {
        let mut n: usize = 0;
        // No `for`: how many words follow is known only at the line's end.
        while self.byte() == b' ' {
            self.skip();
            n = self.word(message, n);
        }
        n
    }
}
