// The program's buffers, of which a caller knows the length alone.

// The rows that the program holds.
pub const ROWS: usize = 131_072;

// The words of these.
pub const WORDS: usize = 1_310_720;

// The bytes of a message; one over the limit, so that a longer one is refused.
pub const MESSAGE: usize = 1_048_577;

// The bytes of a message in house form.
pub const HOUSE: usize = 1_048_576;

// The bytes of a block of output.
pub const BLOCK: usize = 65_536;

// So many zeros.
pub fn zeros<T: Copy + Default, const N: usize>() -> [T; N] {
    [T::default(); N]
}
