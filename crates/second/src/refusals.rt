// Refusals.

// Why a message is refused.
#[derive(Clone, Copy, PartialEq, Eq)]
pub enum Reason {
    // The steps were not enough, which is no reason of the document's.
    Unfinished,
    TooLong,
    Early,
    Unexpected,
    Content,
    Limit,
    Integer,
    Depth,
    Rows,
    Trailing,
    NotBuilt,
}

impl Reason {
    // The number that document 01 gives back.
    fn number(self) -> u32 {
        match self {
            Reason::Unfinished => 0,
            Reason::TooLong => 1,
            Reason::Early => 2,
            Reason::Unexpected => 3,
            Reason::Content => 4,
            Reason::Limit => 5,
            Reason::Integer => 6,
            Reason::Depth => 7,
            Reason::Rows => 8,
            Reason::Trailing => 9,
            Reason::NotBuilt => 13,
        }
    }
}

// A refusal: its reason, and the place that goes with it.
#[derive(Clone, Copy, PartialEq, Eq)]
pub struct Refusal {
    reason: Reason,
    place: u32,
}

impl Refusal {
    // For a reason, at a place.
    pub fn new(reason: Reason, place: u32) -> Refusal {
        Refusal { reason, place }
    }

    // Its number.
    pub fn number(self) -> u32 {
        self.reason.number()
    }

    // Its place.
    pub fn place(self) -> usize {
        self.place as usize
    }
}
