// Numbers by chance, the same each time.
ghost use Rattle.std.specs.Prelude.{◌<◌};

// Dice: what the numbers are drawn from.
#[derive(Clone, Copy)]
pub struct Dice {
    pub state: u64,
}

impl Dice {
    // The dice of a message: the number of the message, spread over the state.
    pub fn new(number: u64) -> Dice {
        let mut dice = Dice {
            state: 0x9E37_79B9_7F4A_7C15 ^ number ^ (number << 24) ^ (number << 44),
        };
        for _ in 0..8 {
            dice.draw(2);
        }
        dice
    }

    // Draws a number below the sides, by Marsaglia's xorshift; 0 where there are no sides.
    pub fn draw(&mut self, sides: u32) -> u32
        ensures { 0 < sides → result < sides }
    {
        let mut x = self.state;
        x ^= x << 13;
        x ^= x >> 7;
        x ^= x << 17;
        self.state = x;
        if sides == 0 {
            return 0;
        }
        ((x >> 20) % u64::from(sides)) as u32
    }
}
