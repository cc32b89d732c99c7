// The marks. The letters are named, and the bytes that go with a mark said, here and nowhere else in code.
ghost use Rattle.std.specs.Prelude.{◌≡◌};
ghost use Rattle.format.specs.Marks.{opening_of, opens, closes, is_integer, is_signed, is_type, is_scalar, is_plain_leaf, is_leaf, width, leaf_width, letter_of};
ghost use Rattle.format.specs.Traits.{traits_of};

// A mark is a byte: the code of its letter.
#[derive(Clone, Copy)]
pub struct Mark(pub u8);

// What goes with a mark: the bytes of its payload, and whether it is an integer's, a signed integer's, a typed container's and a
// scalar's.
#[derive(Clone, Copy)]
pub struct Traits {
    pub width: usize,
    pub integer: bool,
    pub signed: bool,
    pub typed: bool,
    pub scalar: bool,
}

// No mark of a value that is its mark and its payload.
const OTHER: Traits = Traits {
    width: 0,
    integer: false,
    signed: false,
    typed: false,
    scalar: false,
};

// Nothing is carried.
const EMPTY: Traits = Traits {
    scalar: true,
    ..OTHER
};

// Bytes that are no integer.
const OPAQUE: Traits = Traits {
    typed: true,
    ..EMPTY
};

// An integer without a sign.
const UNSIGNED: Traits = Traits {
    integer: true,
    ..OPAQUE
};

// An integer with a sign.
const SIGNED: Traits = Traits {
    signed: true,
    ..UNSIGNED
};

impl Mark {
    // The letters.
    pub const NULL: u8 = b'Z';

    pub const TRUE: u8 = b'T';

    pub const FALSE: u8 = b'F';

    pub const INT8: u8 = b'i';

    pub const UINT8: u8 = b'U';

    pub const INT16: u8 = b'I';

    pub const UINT16: u8 = b'u';

    pub const INT32: u8 = b'l';

    pub const UINT32: u8 = b'm';

    pub const INT64: u8 = b'L';

    pub const UINT64: u8 = b'M';

    pub const HALF: u8 = b'h';

    pub const SINGLE: u8 = b'd';

    pub const DOUBLE: u8 = b'D';

    pub const CHAR: u8 = b'C';

    pub const BYTE: u8 = b'B';

    pub const TEXT: u8 = b'S';

    pub const HIGH_PRECISION: u8 = b'H';

    pub const EXTENSION: u8 = b'E';

    pub const NOOP: u8 = b'N';

    pub const COUNT: u8 = b'#';

    pub const TYPE: u8 = b'$';

    pub const ARRAY: u8 = b'[';

    pub const ARRAY_END: u8 = b']';

    pub const OBJECT: u8 = b'{';

    pub const OBJECT_END: u8 = b'}';

    // The mark that a word of a row stands for; 0, which is none, where the word is no byte.
    pub fn of(word: u32) -> Mark
        ensures { result.0 ≡ letter_of word }
    {
        if word < 256 {
            return Mark(word as u8);
        }
        Mark(0)
    }

    pub fn traits(self) -> Traits
        ensures { result ≡ traits_of self.0 }
    {
        let m = self.0;
        match m {
            Mark::NULL => EMPTY,
            Mark::TRUE => EMPTY,
            Mark::FALSE => EMPTY,
            Mark::INT8 => Traits { width: 1, ..SIGNED },
            Mark::UINT8 => Traits {
                width: 1,
                ..UNSIGNED
            },
            Mark::INT16 => Traits { width: 2, ..SIGNED },
            Mark::UINT16 => Traits {
                width: 2,
                ..UNSIGNED
            },
            Mark::INT32 => Traits { width: 4, ..SIGNED },
            Mark::UINT32 => Traits {
                width: 4,
                ..UNSIGNED
            },
            Mark::INT64 => Traits { width: 8, ..SIGNED },
            Mark::UINT64 => Traits {
                width: 8,
                ..UNSIGNED
            },
            Mark::HALF => Traits { width: 2, ..OPAQUE },
            Mark::SINGLE => Traits { width: 4, ..OPAQUE },
            Mark::DOUBLE => Traits { width: 8, ..OPAQUE },
            Mark::CHAR => Traits { width: 1, ..OPAQUE },
            Mark::BYTE => Traits { width: 1, ..OPAQUE },
            _ => OTHER,
        }
    }

    // The bytes that go with the mark; 0 where none do.
    pub fn width(self) -> usize
        ensures { result ≡ width self.0 }
    {
        self.traits().width
    }

    // A mark of an integer record.
    pub fn is_integer(self) -> bool
        ensures { result ≡ is_integer self.0 }
    {
        self.traits().integer
    }

    pub fn is_signed(self) -> bool
        ensures { result ≡ is_signed self.0 }
    {
        self.traits().signed
    }

    // One of the thirteen marks of a typed container.
    pub fn is_type(self) -> bool
        ensures { result ≡ is_type self.0 }
    {
        self.traits().typed
    }

    pub fn is_scalar(self) -> bool
        ensures { result ≡ is_scalar self.0 }
    {
        self.traits().scalar
    }

    // The bytes of a schema leaf: `T` has one in a record.
    pub fn leaf_width(self) -> usize
        ensures { result ≡ leaf_width self.0 }
    {
        let m = self.0;
        if m == Mark::TRUE {
            return 1;
        }
        self.width()
    }

    // A schema leaf that is its mark alone.
    pub fn is_plain_leaf(self) -> bool
        ensures { result ≡ is_plain_leaf self.0 }
    {
        let m = self.0;
        if m == Mark::TRUE {
            return true;
        }
        if m == Mark::NULL {
            return true;
        }
        self.is_type()
    }

    // A schema leaf's mark.
    pub fn is_leaf(self) -> bool
        ensures { result ≡ is_leaf self.0 }
    {
        let m = self.0;
        if self.is_plain_leaf() {
            return true;
        }
        m == Mark::TEXT
    }
}

// The opening mark of an array or object.
pub fn opening_mark(brace: bool) -> u8
    ensures { result ≡ opens (opening_of brace) }
{
    if brace {
        return Mark::OBJECT;
    }
    Mark::ARRAY
}

// The closing mark.
pub fn closing_mark(brace: bool) -> u8
    ensures { result ≡ closes (opening_of brace) }
{
    if brace {
        return Mark::OBJECT_END;
    }
    Mark::ARRAY_END
}
