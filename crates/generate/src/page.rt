// What a message is written on.
ghost use Rattle.std.specs.Prelude.{◌<◌};

use crate::dice::Dice;
use crate::numbers::small;
use format::marks::Mark;

// A page: the lent bytes, how many of them are written, and the dice that choose them. The memory is the caller's and fixed, so the
// length stands beside it.
#[derive(Drop)]
pub struct Page<'a> {
    bytes: &'a mut [u8],
    at: usize,
    dice: Dice,
    // Whether faults are written now and then.
    pub faulty: bool,
}

impl<'a> Page<'a> {
    // An empty page, with the dice of a message's number.
    pub fn new(number: u64, bytes: &'a mut [u8]) -> Page<'a> {
        Page {
            bytes,
            at: 0,
            dice: Dice::new(number),
            faulty: false,
        }
    }

    // How many bytes are written.
    pub fn len(&self) -> usize {
        self.at
    }

    // Draws a number below the sides.
    pub fn draw(&mut self, sides: u32) -> u32
        ensures { 0 < sides → result < sides }
    {
        self.dice.draw(sides)
    }

    // Draws whether a fault is written here: once in so many times.
    pub fn slip(&mut self, sides: u32) -> bool {
        let drawn = self.draw(sides);
        self.faulty && drawn == 0
    }

    // Draws one of some letters.
    pub fn pick(&mut self, letters: &[u8]) -> u8 {
        let drawn = self.draw(small(letters.len()));
        letters.get(drawn as usize).copied().unwrap_or(0)
    }

    // The bits for a number: few, so that the small ones come often; or all. The dice stay as they were.
    fn bits(&self) -> u64 {
        let mut ahead = self.dice;
        if ahead.draw(3) == 0 {
            ahead.state
        } else {
            ahead.state % 8
        }
    }

    // Writes a byte; what there is no room for is dropped.
    pub fn put(&mut self, b: u8) {
        let at = self.at;
        if let Some(next) = self.bytes.get_mut(at) {
            *next = b;
            self.at = at + 1;
        }
    }

    // Writes some bytes.
    pub fn put_all(&mut self, bytes: &[u8]) {
        for b in bytes {
            self.put(*b);
        }
    }

    // Writes the bytes of a mark's number, the lowest first.
    pub fn put_number(&mut self, mark: u8, number: u64) {
        for b in number.to_le_bytes().iter().take(Mark(mark).width()) {
            self.put(*b);
        }
    }

    // Writes a number by chance in the bytes of a mark.
    pub fn put_bits(&mut self, mark: u8) {
        let bits = self.bits();
        self.put_number(mark, bits);
    }

    // Draws a place of the message.
    pub fn place(&mut self) -> usize {
        let written = small(self.at);
        self.draw(written) as usize
    }

    // The bytes written from a place on.
    pub fn from(&mut self, place: usize) -> &mut [u8] {
        let at = self.at;
        self.bytes.get_mut(place..at).unwrap_or_default()
    }

    // Cuts the message off.
    pub fn truncate(&mut self, place: usize) {
        self.at = place;
    }
}
