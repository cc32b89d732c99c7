// The types of the public calls' answers. specs/Answers.antt says which number and values of 01 each case stands for.
ghost use Rattle.std.specs.Prelude.{◌≡◌};
ghost use Rattle.format.specs.Tokens.{kind_number};
ghost use Rattle.format.specs.Answers.{kind_of, KindNumbered};

// Where a slot or a text stands: its first byte and its width.
#[derive(Clone, Copy, PartialEq, Eq)]
pub struct Span {
    pub first: usize,
    pub width: usize,
}

// The edition that a message is read by: the old series sends no extensions, the new one does.
#[derive(Clone, Copy, PartialEq, Eq)]
pub enum Edition {
    Old,
    New,
}

// A token's kind.
#[derive(Clone, Copy, PartialEq, Eq)]
pub enum Kind {
    Scalar,
    Text,
    HighPrecision,
    Key,
    Array,
    Object,
    Packed,
    Table,
    Leaf,
    SchemaRecord,
    FixedArray,
    Dimension,
    Extension,
}

impl Kind {
    // The number of a kind.
    pub fn number(self) -> u32
        ensures { result ≡ kind_number (kind_of self) }
    {
        match self {
            Kind::Scalar => 1,
            Kind::Text => 2,
            Kind::HighPrecision => 3,
            Kind::Key => 4,
            Kind::Array => 5,
            Kind::Object => 6,
            Kind::Packed => 7,
            Kind::Table => 8,
            Kind::Leaf => 9,
            Kind::SchemaRecord => 10,
            Kind::FixedArray => 11,
            Kind::Dimension => 12,
            Kind::Extension => 13,
        }
    }
}

// A number that no kind has.
#[derive(Clone, Copy, PartialEq, Eq)]
pub struct UnknownKind(pub u32);

// The kind that has a number.
impl TryFrom<u32> for Kind {
    type Error = UnknownKind;

    ghost try_from_gives = { KindNumbered };

    fn try_from(number: u32) -> Result<Self, UnknownKind> {
        match number {
            1 => Ok(Kind::Scalar),
            2 => Ok(Kind::Text),
            3 => Ok(Kind::HighPrecision),
            4 => Ok(Kind::Key),
            5 => Ok(Kind::Array),
            6 => Ok(Kind::Object),
            7 => Ok(Kind::Packed),
            8 => Ok(Kind::Table),
            9 => Ok(Kind::Leaf),
            10 => Ok(Kind::SchemaRecord),
            11 => Ok(Kind::FixedArray),
            12 => Ok(Kind::Dimension),
            13 => Ok(Kind::Extension),
            _ => Err(UnknownKind(number)),
        }
    }
}

// A scalar's value. No f32 or f64 keeps a NaN's bits, so these have cases of their own.
#[derive(Clone, Copy)]
pub enum Value {
    Null,
    Boolean(bool),
    Signed(i64),
    Unsigned(u64),
    Single(f32),
    SingleNan(u32),
    Double(f64),
    DoubleNan(u64),
    Char(u8),
    Byte(u8),
}

// A scalar's value, with the token's kind kept beside it.
#[derive(Clone, Copy)]
pub struct Token {
    pub kind: Kind,
    pub value: Value,
}
