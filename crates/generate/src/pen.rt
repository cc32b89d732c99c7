// Numbers by chance for the programs that change messages.
use crate::dice::Dice;

// A pen: dice, and the number drawn last.
#[derive(Clone, Copy)]
pub struct Pen {
    dice: Dice,
    pub value: u32,
}

impl Pen {
    // The pen of a number.
    pub fn new(number: u64) -> Pen {
        Pen {
            dice: Dice::new(number),
            value: 0,
        }
    }

    // Draws a number below the sides.
    pub fn draw(mut self, sides: u32) -> Pen {
        self.value = self.dice.draw(sides);
        self
    }
}
