// The structs that the C calls answer with. specs/Answers.antt says what they hold for each outcome.
ghost use Rattle.std.specs.Prelude.{◌≡◌, true};
ghost use Rattle.format.specs.Answers.{answered, located, found, valued, value_of, nan_apart};
ghost use Rattle.values.specs.Answers.{NansApart};
ghost use Rattle.structs.specs.Answers.{reading_for, place_for, member_for, case_for, bits_for, scalar_for};

use format::answers::{Span, Token, Value};
use format::refusals::{Refusal, Refused};

// Number and place, and the rows used or the bytes written.
#[repr(C)]
#[derive(Clone, Copy)]
pub struct Reading {
    pub number: u32,
    pub place: usize,
    pub amount: usize,
}

// The number, and a slot's or a text's first byte and width.
#[repr(C)]
#[derive(Clone, Copy)]
pub struct Place {
    pub number: u32,
    pub first: usize,
    pub width: usize,
}

// The number, and a row.
#[repr(C)]
#[derive(Clone, Copy)]
pub struct Member {
    pub number: u32,
    pub row: usize,
}

// The number, and a value's kind, case and bits.
#[repr(C)]
#[derive(Clone, Copy)]
pub struct Scalar {
    pub number: u32,
    pub kind: u32,
    pub case: u32,
    pub bits: u64,
}

// The reader's and the rewriter's answer.
impl From<Result<usize, Refused>> for Reading {
    ghost from_gives = { λ answer reading. reading ≡ reading_for (answered answer) };

    #[tactic(auto, unfolding(format::specs::Outcome::number_of, format::specs::Outcome::place_of, format::specs::Outcome::or_zero))]
    fn from(answer: Result<usize, Refused>) -> Reading {
        match answer {
            Err(Refused(refusal, place)) => {
                let number = refusal.number();
                Reading {
                    number,
                    place,
                    amount: 0,
                }
            }
            Ok(amount) => Reading {
                number: 0,
                place: 0,
                amount,
            },
        }
    }
}

// A slot or a text.
impl From<Result<Span, Refusal>> for Place {
    ghost from_gives = { λ answer place. place ≡ place_for (located answer) };

    fn from(answer: Result<Span, Refusal>) -> Place {
        match answer {
            Err(refusal) => Place {
                number: refusal.number(),
                first: 0,
                width: 0,
            },
            Ok(Span { first, width }) => Place {
                number: 0,
                first,
                width,
            },
        }
    }
}

// The row that a name leads to.
impl From<Result<usize, Refusal>> for Member {
    ghost from_gives = { λ answer member. member ≡ member_for (found answer) };

    #[tactic(auto, unfolding(format::specs::Outcome::number_of, format::specs::Outcome::or_zero))]
    fn from(answer: Result<usize, Refusal>) -> Member {
        match answer {
            Err(refusal) => {
                let number = refusal.number();
                Member { number, row: 0 }
            }
            Ok(row) => Member { number: 0, row },
        }
    }
}

// The number of a value's case, as the C interface has it.
fn case_of(value: Value) -> u32
    ensures { result ≡ case_for (value_of value) }
{
    match value {
        Value::Null => 0,
        Value::Boolean(_) => 1,
        Value::Signed(_) => 2,
        Value::Unsigned(_) => 3,
        Value::Single(_) | Value::SingleNan(_) => 4,
        Value::Double(_) | Value::DoubleNan(_) => 5,
        Value::Char(_) => 6,
        Value::Byte(_) => 7,
    }
}

// A value's bits.
fn bits_of(value: Value) -> u64
    requires { nan_apart value ≡ true }
    ensures { result ≡ bits_for (value_of value) }
{
    match value {
        Value::Null => 0,
        Value::Boolean(b) => u64::from(b),
        Value::Signed(n) => n.cast_unsigned(),
        Value::Unsigned(n) => n,
        Value::Single(f) => u64::from(f.to_bits()),
        Value::SingleNan(b) => u64::from(b),
        Value::Double(f) => f.to_bits(),
        Value::DoubleNan(b) => b,
        Value::Char(c) => u64::from(c),
        Value::Byte(b) => u64::from(b),
    }
}

// A scalar's value. A function, and no `From`, since it asks that NaNs stand in cases of their own.
pub fn scalar_of(answer: Result<Token, Refusal>) -> Scalar
    requires { NansApart answer }
    ensures { result ≡ scalar_for (valued answer) }
{
    match answer {
        Err(refusal) => Scalar {
            number: refusal.number(),
            kind: 0,
            case: 0,
            bits: 0,
        },
        Ok(Token { kind, value }) => Scalar {
            number: 0,
            kind: kind.number(),
            case: case_of(value),
            bits: bits_of(value),
        },
    }
}
