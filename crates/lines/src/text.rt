// What is left of the input, read from its front.
ghost use Rattle.std.specs.Prelude.{◌≡◌, ◌==◌, ◌≤◌, ◌<◌, false, if◌then◌else◌, take, drop, length, slice_index_or};
ghost use Rattle.std.specs.Char.{is_ascii_digit};
ghost use Rattle.format.specs.declared.answers.Edition.TheVariants.{Old, New};

use crate::numbers::longer;
use format::answers::Edition;

// The bytes that are left.
#[derive(Clone, Copy)]
pub struct Text<'a> {
    pub rest: &'a [u8],
}

impl<'a> Text<'a> {
    // The byte at the front; a line's end past the last.
    pub fn byte(&self) -> u8
        ensures { result ≡ slice_index_or self.now.rest.now 0 10 }
    {
        self.rest.first().copied().unwrap_or(b'\n')
    }

    // Takes so many bytes off the front.
    pub(crate) fn take(&mut self, bytes: usize) -> &'a [u8]
        requires { bytes ≤ length self.old.rest.now }
        ensures taken { result.now ≡ take bytes self.old.rest.now }
        ensures rest { self.new.rest.now ≡ drop bytes self.old.rest.now }
    {
        let (front, rest) = self.rest.split_at(bytes);
        self.rest = rest;
        front
    }

    // Goes past one byte.
    pub fn skip(&mut self)
        ensures { self.new.rest.now ≡ drop 1 self.old.rest.now }
    {
        self.rest = self.rest.get(1..).unwrap_or(&[]);
    }

    // Goes past the next such byte, or to the end.
    pub fn past(&mut self, stop: u8)
        ensures none { length self.new.rest.now ≤ length self.old.rest.now }
        ensures some { 0 < length self.old.rest.now → length self.new.rest.now < length self.old.rest.now }
    {
        let before = self.rest.iter().position(|b| *b == stop);
        let after = before.map_or(self.rest.len(), |i| i.saturating_add(1));
        self.rest = self.rest.get(after..).unwrap_or(&[]);
    }

    // Takes the decimal number at the front: its digits up to the first other byte.
    pub fn decimal(&mut self) -> usize
        ensures rest { length self.new.rest.now ≤ length self.old.rest.now }
        ensures stops { is_ascii_digit (slice_index_or self.new.rest.now 0 10) ≡ false }
    {
        let end = self.rest.iter().position(|b| !b.is_ascii_digit());
        let digits = self.take(end.unwrap_or(self.rest.len()));
        digits.iter().fold(0, |value, digit| longer(value, *digit))
    }

    // Takes the letter of an edition: `o` for the old one, and any other for the new.
    pub fn edition(&mut self) -> Edition
        ensures named { result ≡ (if slice_index_or self.old.rest.now 0 10 == 111 then Old else New) }
        ensures rest { self.new.rest.now ≡ drop 1 self.old.rest.now }
    {
        let letter = self.byte();
        self.skip();
        match letter {
            b'o' => Edition::Old,
            _ => Edition::New,
        }
    }
}
