// Floats, exactly: in decimal where that takes at most 60 digits after the point and 64 bits before it, else as a whole number
// times a power of two.
ghost use Rattle.std.specs.Prelude.{◌<◌, ◌≤◌};

use std::fmt;
use std::fmt::{Display, Formatter, Write};

// The most digits after the point.
const PLACES: u32 = 60;

// A whole number times two to the power of `exponent`.
#[derive(Clone, Copy)]
struct Binary {
    whole: u64,
    exponent: i32,
}

impl Binary {
    // The same number, by an odd whole number where it is a fraction.
    fn reduced(self) -> Binary {
        if 0 <= self.exponent {
            return self;
        }
        let halvings = self
            .whole
            .trailing_zeros()
            .min(self.exponent.unsigned_abs());
        Binary {
            whole: self.whole.checked_shr(halvings).unwrap_or(0),
            exponent: self.exponent.saturating_add_unsigned(halvings),
        }
    }

    // The number itself, where it is a whole one of at most 64 bits.
    fn to_whole(self) -> Option<u64> {
        if self.whole == 0 {
            return Some(0);
        }
        let exponent = u32::try_from(self.exponent).ok()?;
        self.whole.checked_mul(1u64.checked_shl(exponent)?)
    }
}

impl Display for Binary {
    // As a whole number, with digits after the point, or with the power of two.
    fn fmt<W: Write>(&self, f: &mut Formatter<W>) -> fmt::Result {
        let number = self.reduced();
        if let Some(n) = number.to_whole() {
            return write!(f, "{n}");
        }
        let places = number.exponent.unsigned_abs();
        if number.exponent < 0 && places <= PLACES {
            return pointed(f, number.whole, places);
        }
        write!(f, "{} x 2^{}", number.whole, number.exponent)
    }
}

// An odd number divided by two so many times: there are as many digits after the point.
fn pointed<W: Write>(f: &mut Formatter<W>, whole: u64, places: u32) -> fmt::Result
    requires some { 0 < places }
    requires most { places ≤ 60 }
{
    write!(f, "{}.", whole >> places)?;
    let mut rest = whole << (64 - places);
    for _ in 0..places {
        let ten = rest as u128 * 10;
        write!(f, "{}", ten >> 64)?;
        rest = (ten % 0x1_0000_0000_0000_0000) as u64;
    }
    Ok(())
}

// A float by its parts: whether it is negative, its exponent's bits, the largest of these, and its fraction. A fraction has one more
// bit before it, `hidden`, unless its exponent's bits are 0; `bias` is what is taken from these for the power of two.
#[derive(Clone, Copy)]
struct Parts {
    negative: bool,
    exponent: u16,
    largest: u16,
    fraction: u64,
    hidden: u64,
    bias: u16,
}

impl Parts {
    // The number that a finite float with no sign is.
    fn number(self) -> Binary {
        if self.exponent == 0 {
            return Binary {
                whole: self.fraction,
                exponent: 1 - i32::from(self.bias),
            };
        }
        Binary {
            whole: self.fraction | self.hidden,
            exponent: i32::from(self.exponent) - i32::from(self.bias),
        }
    }
}

impl Display for Parts {
    // The sign, and the number or the word for what is none.
    fn fmt<W: Write>(&self, f: &mut Formatter<W>) -> fmt::Result {
        let sign = if self.negative { "-" } else { "" };
        if self.exponent != self.largest {
            return write!(f, "{sign}{}", self.number());
        }
        match self.fraction {
            0 => write!(f, "{sign}infinity"),
            _ => write!(f, "{sign}NaN"),
        }
    }
}

// A float by its bits.
#[derive(Clone, Copy)]
pub enum Float {
    Single(u32),
    Double(u64),
}

impl Float {
    // The parts of the bits.
    fn parts(self) -> Parts {
        match self {
            Float::Single(bits) => Parts {
                negative: bits / 0x8000_0000 == 1,
                exponent: (bits / 0x80_0000 % 0x100) as u16,
                largest: 0xFF,
                fraction: u64::from(bits % 0x80_0000),
                hidden: 0x80_0000,
                bias: 150,
            },
            Float::Double(bits) => Parts {
                negative: bits / 0x8000_0000_0000_0000 == 1,
                exponent: (bits / 0x10_0000_0000_0000 % 0x800) as u16,
                largest: 0x7FF,
                fraction: bits % 0x10_0000_0000_0000,
                hidden: 0x10_0000_0000_0000,
                bias: 1075,
            },
        }
    }
}

impl Display for Float {
    // The float, and its bits in hex.
    fn fmt<W: Write>(&self, f: &mut Formatter<W>) -> fmt::Result {
        let parts = self.parts();
        match self {
            Float::Single(bits) => write!(f, "{parts} (single {bits:08x})"),
            Float::Double(bits) => write!(f, "{parts} (double {bits:016x})"),
        }
    }
}
