// Integer records: lengths, counts, dimensions and ids.
use crate::page::Page;

// The marks of integers.
pub const MARKS: &[u8] = b"iUIulmLM";

// Records that are refused: negative ones, and ones over the limit by little or by much.
const WRONG: [(u8, u64); 8] = [
    (b'i', 0xFF),
    (b'I', 0x8000),
    (b'l', 0xFFFF_FF00),
    (b'L', 0x8000_0000_0000_0000),
    (b'l', 1_048_577),
    (b'm', 0x8000_0001),
    (b'L', 0x1_0000_0002),
    (b'M', 0xFFFF_FFFF_FFFF_FFFE),
];

// The largest number that an integer of a mark may be asked to hold.
fn largest(mark: u8) -> u32 {
    match mark {
        b'i' => 127,
        b'U' => 255,
        b'I' => 32767,
        b'u' => 65535,
        b'l' => 0x7FFF_FFFF,
        _ => u32::MAX,
    }
}

// A mark that can hold a number: most often `U`, else any.
fn fitting(page: &mut Page<'_>, number: u32) -> u8 {
    let drawn = page.draw(16);
    let mark = MARKS.get(drawn as usize).copied().unwrap_or(b'U');
    if number <= largest(mark) { mark } else { b'm' }
}

// Writes an integer record of the mark.
fn record(page: &mut Page<'_>, mark: u8, number: u64) {
    page.put(mark);
    page.put_number(mark, number);
}

// Writes one of eight integer records.
pub fn any_record(page: &mut Page<'_>, records: &[(u8, u64); 8]) {
    let (mark, number) = records[page.draw(8) as usize];
    record(page, mark, number);
}

// Writes an integer record that fits the number.
pub fn fitting_record(page: &mut Page<'_>, number: u32) {
    let mark = fitting(page, number);
    record(page, mark, u64::from(number));
}

// Writes an integer record; as a fault one that is refused.
pub fn integer(page: &mut Page<'_>, number: u32) {
    if page.slip(20) {
        any_record(page, &WRONG);
    } else {
        fitting_record(page, number);
    }
}
