// Lists of numbers.
ghost use Rattle.std.specs.Prelude.{◌≤◌, length};

use lines::text::Text;
use memory::filled;

// The most numbers of a list.
pub const NUMBERS: usize = 640;

// Takes decimal numbers with a comma between two, and stores them as far as there is room; answers how many.
pub fn list(text: &mut Text<'_>, numbers: &mut [usize]) -> usize
    ensures { result ≤ length numbers.old }
{
    for (stored, number) in numbers.iter_mut().enumerate() {
        if !text.byte().is_ascii_digit() {
            return stored;
        }
        *number = text.decimal();
        if text.byte() != b',' {
            return stored + 1;
        }
        text.skip();
    }
    numbers.len()
}

// A number as a word, or the largest word.
pub fn word(n: usize) -> u32 {
    u32::try_from(n).unwrap_or(u32::MAX)
}

// Takes words with a comma between two, and stores them as far as there is room; answers how many.
pub fn row_words(text: &mut Text<'_>, rows: &mut [u32]) -> usize
    ensures { result ≤ length rows.old }
{
    let mut numbers = filled::<usize, NUMBERS>(0);
    let n = list(text, &mut numbers);
    for (row_word, number) in rows.iter_mut().zip(&numbers[..n]) {
        *row_word = word(*number);
    }
    n.min(rows.len())
}
