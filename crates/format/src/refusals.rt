// Why a message, an address or a name is refused. specs/Refusals.antt has the numbers, and says which place goes with each.
ghost use Rattle.std.specs.Prelude.{◌≡◌};
ghost use Rattle.format.specs.Answers.{refusal_number};

#[derive(Clone, Copy, PartialEq, Eq)]
pub enum Refusal {
    MessageTooLong,
    EndsTooEarly,
    NotAllowed,
    WrongContent,
    OverLimit,
    WrongInteger,
    TooDeep,
    NoRowLeft,
    BytesAfter,
    NotThere,
    OutputTooLong,
    RowsDontFit,
    NotBuilt,
}

impl Refusal {
    // The number that it is given back by.
    pub fn number(self) -> u32
        ensures { result ≡ refusal_number self }
    {
        match self {
            Refusal::MessageTooLong => 1,
            Refusal::EndsTooEarly => 2,
            Refusal::NotAllowed => 3,
            Refusal::WrongContent => 4,
            Refusal::OverLimit => 5,
            Refusal::WrongInteger => 6,
            Refusal::TooDeep => 7,
            Refusal::NoRowLeft => 8,
            Refusal::BytesAfter => 9,
            Refusal::NotThere => 10,
            Refusal::OutputTooLong => 11,
            Refusal::RowsDontFit => 12,
            Refusal::NotBuilt => 13,
        }
    }
}

// A refusal and its place in the message.
#[derive(Clone, Copy, PartialEq, Eq)]
pub struct Refused(pub Refusal, pub usize);
