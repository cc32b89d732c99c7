// Answers, and what goes with them.
use format::marks::Mark;
use format::refusals::Refused;
use second::refusals::Refusal;
use std::fmt;

// An answer as numbers: number, place and rows used.
#[derive(Clone, Copy, PartialEq, Eq)]
pub struct Numbers {
    pub number: u32,
    pub place: usize,
    pub used: usize,
}

impl Numbers {
    // The numbers where rows are used.
    fn done(used: usize) -> Numbers {
        Numbers {
            number: 0,
            place: 0,
            used,
        }
    }

    // The numbers of a refusal.
    fn refused(number: u32, place: usize) -> Numbers {
        Numbers {
            number,
            place,
            used: 0,
        }
    }
}

impl From<Result<usize, Refused>> for Numbers {
    // The numbers of the reader's answer.
    fn from(answer: Result<usize, Refused>) -> Numbers {
        match answer {
            Ok(used) => Numbers::done(used),
            Err(Refused(refusal, place)) => Numbers::refused(refusal.number(), place),
        }
    }
}

impl From<Result<usize, Refusal>> for Numbers {
    // The numbers of the second reader's answer.
    fn from(answer: Result<usize, Refusal>) -> Numbers {
        match answer {
            Ok(used) => Numbers::done(used),
            Err(refusal) => Numbers::refused(refusal.number(), refusal.place()),
        }
    }
}

impl fmt::Display for Numbers {
    // The numbers in words.
    fn fmt<W: fmt::Write>(&self, f: &mut fmt::Formatter<W>) -> fmt::Result {
        let number = self.number;
        let place = self.place;
        let used = self.used;
        write!(f, "{number} at {place}, rows {used};")
    }
}

impl Numbers {
    // Whether the message is accepted.
    pub fn is_accepted(self) -> bool {
        self.number == 0
    }

    // Whether a byte of the message is refused that is an `E`.
    pub fn refuses_extension(self, message: &[u8]) -> bool {
        self.number == 3 && message.get(self.place).copied() == Some(Mark::EXTENSION)
    }
}

// What a reader gives: its answer, and the lent words as it left them.
#[derive(Clone, Copy, PartialEq, Eq)]
pub struct Reading<'a> {
    pub answer: Numbers,
    pub words: &'a [u32],
}
