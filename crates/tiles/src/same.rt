// Whether two answers are the same.
use format::answers::{Token, Value};
use format::refusals::Refusal;

// A value answer by numbers: the token's kind, the value's case, and what the case holds.
#[derive(Clone, Copy, Default, PartialEq)]
struct Content {
    kind: u32,
    case: u32,
    bits: u64,
    signed: i64,
    single: f32,
    double: f64,
}

// A case that holds a whole number.
fn whole(case: u32, bits: u64) -> Content {
    Content {
        case,
        bits,
        ..Content::default()
    }
}

// A value by numbers.
fn value_content(value: Value) -> Content {
    match value {
        Value::Null => whole(1, 0),
        Value::Boolean(b) => whole(2, u64::from(b)),
        Value::Signed(signed) => Content {
            case: 3,
            signed,
            ..Content::default()
        },
        Value::Unsigned(x) => whole(4, x),
        Value::Single(single) => Content {
            case: 5,
            single,
            ..Content::default()
        },
        Value::Double(double) => Content {
            case: 6,
            double,
            ..Content::default()
        },
        Value::SingleNan(x) => whole(7, u64::from(x)),
        Value::DoubleNan(x) => whole(8, x),
        Value::Char(x) => whole(9, u64::from(x)),
        Value::Byte(x) => whole(10, u64::from(x)),
    }
}

// A value answer by numbers; a refusal's number has a case of its own.
fn content_of(answer: Result<Token, Refusal>) -> Content {
    match answer {
        Err(refusal) => whole(0, u64::from(refusal.number())),
        Ok(token) => {
            let mut c = value_content(token.value);
            c.kind = token.kind.number();
            c
        }
    }
}

// Whether two value answers are the same.
pub fn same_value(a: Result<Token, Refusal>, b: Result<Token, Refusal>) -> bool {
    content_of(a) == content_of(b)
}
