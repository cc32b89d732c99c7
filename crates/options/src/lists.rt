// Lists of decimal numbers with a comma between two, as an address has them.
ghost use Rattle.std.specs.Prelude.{◌≤◌, IfOk};

use crate::faults::Fault;

// The digits that a number of an address may have.
const DIGITS: usize = 18;

// The numbers of a list, at most eight, and how many there are; 0 stands in the places after them.
#[derive(Clone, Copy, Debug)]
pub struct List {
    pub numbers: [usize; 9],
    pub count: usize,
}

// Whether a word is a list.
fn is_list(word: &[u8]) -> bool {
    word.split(|&b| b == b',').all(|part| !part.is_empty()
        && part.iter().all(|b| b.is_ascii_digit()))
}

// A decimal number of few digits.
fn decimal(digits: &[u8]) -> Option<usize> {
    str::from_utf8(digits).ok()?.parse().ok()
}

impl List {
    // The list of at most so many numbers that a word is.
    pub fn parse(word: &[u8], most: usize) -> Result<List, Fault>
        ensures { IfOk result (λ list. list.count ≤ most) }
    {
        if !is_list(word) {
            return Err(Fault::OtherList);
        }
        let count = word.split(|&b| b == b',').count();
        if most < count {
            return Err(Fault::ManyNumbers);
        }
        if word.split(|&b| b == b',').any(|part| DIGITS < part.len()) {
            return Err(Fault::LongNumber);
        }
        let mut numbers = [0; 9];
        for (number, part) in numbers.iter_mut().zip(word.split(|&b| b == b',')) {
            *number = decimal(part).unwrap_or(0);
        }
        Ok(List { numbers, count })
    }
}
