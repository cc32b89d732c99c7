// Answers, and the calls that give them: each over words and bytes that are not zero.
use format::answers::Edition;
use format::refusals;
use second::refusals::Refusal;

// A refusal's number and place.
#[derive(Clone, Copy, PartialEq)]
pub struct Refused(pub u32, pub usize);

impl From<refusals::Refused> for Refused {
    // The reader's and the rewriter's.
    fn from(why: refusals::Refused) -> Refused {
        let refusals::Refused(refusal, place) = why;
        Refused(refusal.number(), place)
    }
}

impl From<Refusal> for Refused {
    // The second reader's.
    fn from(refusal: Refusal) -> Refused {
        Refused(refusal.number(), refusal.place())
    }
}

// Rows used or bytes written, or a refusal.
pub type Answered = Result<usize, Refused>;

// What the reader answers.
pub fn by_reader(message: &[u8], rows: &mut [u32]) -> Answered {
    rows.fill(0xAAAA_AAAA);
    Ok(reader::message::read(Edition::New, message, rows)?)
}

// What the second reader answers.
pub fn by_second(message: &[u8], rows: &mut [u32]) -> Answered {
    rows.fill(0x5555_5555);
    Ok(second::read(Edition::New, message, rows)?)
}

// What the rewriter answers.
pub fn by_rewriter(message: &[u8], rows: &mut [u32], output: &mut [u8]) -> Answered {
    rows.fill(0x3333_3333);
    output.fill(0x33);
    Ok(rewriter::message::rewrite(Edition::New, message, rows, output)?)
}
