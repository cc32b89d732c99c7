// Brackets: what opens and closes arrays and objects, and the records and fixed arrays of a schema.

// Square brackets, or braces, inside which each member has a key.
#[derive(Clone, Copy, PartialEq, Eq)]
pub enum Bracket {
    Square,
    Brace,
}

impl Bracket {
    // The bracket of a drawn bit: a brace if it is set.
    pub fn of(bit: u32) -> Bracket {
        if bit % 2 == 0 {
            Bracket::Square
        } else {
            Bracket::Brace
        }
    }

    // The opening mark.
    pub fn opening(self) -> u8 {
        match self {
            Bracket::Square => b'[',
            Bracket::Brace => b'{',
        }
    }

    // The closing mark.
    pub fn closing(self) -> u8 {
        match self {
            Bracket::Square => b']',
            Bracket::Brace => b'}',
        }
    }
}
