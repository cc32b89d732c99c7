// How many bytes a scalar's mark and payload have, by the mark.
ghost use Rattle.std.specs.Prelude.{◌≡◌, ◌+◌};
ghost use Rattle.format.specs.Marks.{width};
ghost use Rattle.ends.specs.Ends.{Sized, Sizes};

use format::marks::Mark;

// The size of a mark with which it isn't said where the token ends: more bytes than a message has.
const NO_SIZE: usize = 0x4000_0000;

// The bytes of a scalar's mark and payload, where the payload can't be wrong; else more than a message has.
pub fn size_of(mark: u8) -> usize
    ensures { Sized mark result }
{
    let traits = Mark(mark).traits();
    if mark == Mark::CHAR {
        return NO_SIZE;
    }
    if !traits.scalar {
        return NO_SIZE;
    }
    1 + traits.width
}

// The most bytes that a scalar's mark and payload have.
pub const LONGEST: usize = 9;

// More than these: at a byte that is no scalar's mark.
const NO_SCALAR: u8 = 10;

// The bytes of a mark and the payload that goes with it.
fn size(mark: u8) -> usize
    ensures { result ≡ 1 + width mark }
{
    1 + Mark(mark).width()
}

// The same, in a byte.
fn small_size(mark: u8) -> u8
    ensures { result ≡ 1 + width mark }
{
    size(mark) as u8
}

// The bytes of any scalar's mark and payload, by the mark: the way for marks that follow no order, where a jump would be guessed wrong.
pub fn sizes() -> [u8; 256]
    ensures { Sizes result }
{
    let mut sizes = [NO_SCALAR; 256];
    sizes[Mark::NULL as usize] = small_size(Mark::NULL);
    sizes[Mark::TRUE as usize] = small_size(Mark::TRUE);
    sizes[Mark::FALSE as usize] = small_size(Mark::FALSE);
    sizes[Mark::INT8 as usize] = small_size(Mark::INT8);
    sizes[Mark::UINT8 as usize] = small_size(Mark::UINT8);
    sizes[Mark::BYTE as usize] = small_size(Mark::BYTE);
    sizes[Mark::CHAR as usize] = small_size(Mark::CHAR);
    sizes[Mark::INT16 as usize] = small_size(Mark::INT16);
    sizes[Mark::UINT16 as usize] = small_size(Mark::UINT16);
    sizes[Mark::HALF as usize] = small_size(Mark::HALF);
    sizes[Mark::INT32 as usize] = small_size(Mark::INT32);
    sizes[Mark::UINT32 as usize] = small_size(Mark::UINT32);
    sizes[Mark::SINGLE as usize] = small_size(Mark::SINGLE);
    sizes[Mark::INT64 as usize] = small_size(Mark::INT64);
    sizes[Mark::UINT64 as usize] = small_size(Mark::UINT64);
    sizes[Mark::DOUBLE as usize] = small_size(Mark::DOUBLE);
    sizes
}

// The bytes of mark and payload by a jump, but of a char: the way for marks that come again in the same order, as in objects, where the
// jump is guessed and nothing waits.
pub fn size_by_jump(mark: u8) -> usize
    ensures { Sized mark result }
{
    match mark {
        Mark::NULL => size(Mark::NULL),
        Mark::TRUE => size(Mark::TRUE),
        Mark::FALSE => size(Mark::FALSE),
        Mark::INT8 => size(Mark::INT8),
        Mark::UINT8 => size(Mark::UINT8),
        Mark::BYTE => size(Mark::BYTE),
        Mark::INT16 => size(Mark::INT16),
        Mark::UINT16 => size(Mark::UINT16),
        Mark::HALF => size(Mark::HALF),
        Mark::INT32 => size(Mark::INT32),
        Mark::UINT32 => size(Mark::UINT32),
        Mark::SINGLE => size(Mark::SINGLE),
        Mark::INT64 => size(Mark::INT64),
        Mark::UINT64 => size(Mark::UINT64),
        Mark::DOUBLE => size(Mark::DOUBLE),
        _ => NO_SIZE,
    }
}
