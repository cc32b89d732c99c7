// JSON numbers, a byte at a time.
ghost use Rattle.std.specs.Prelude.{◌≡◌};
ghost use Rattle.format.specs.Conditions.{when◌then◌else◌};
ghost use Rattle.format.specs.JsonNumber.{start, letter, is_digit, leading as leading_of, after_fraction as after_fraction_of, after_whole as after_whole_of, step as step_of, ends as ends_at, is_number};
ghost use Rattle.content.specs.Stages.{stage_of};

// How far a number has come.
#[derive(Clone, Copy)]
pub enum Stage {
    Start,
    Minus,
    LeadingZero,
    Whole,
    Point,
    Fraction,
    Letter,
    Sign,
    Exponent,
    Wrong,
}

fn is_digit(b: u8) -> bool
    ensures { result ≡ is_digit b }
{
    if b < b'0' {
        return false;
    }
    b <= b'9'
}

// `digit` where b is a digit, else `other`.
fn on_digit(b: u8, digit: Stage, other: Stage) -> Stage
    ensures { stage_of result ≡ (when is_digit b then stage_of digit else stage_of other) }
{
    if is_digit(b) {
        return digit;
    }
    other
}

// The number's first digit.
fn leading(b: u8) -> Stage
    ensures { stage_of result ≡ leading_of b }
{
    if b == b'0' {
        return Stage::LeadingZero;
    }
    on_digit(b, Stage::Whole, Stage::Wrong)
}

// The minus, or the first digit.
fn first(b: u8) -> Stage
    ensures { stage_of result ≡ step_of start b }
{
    if b == b'-' {
        return Stage::Minus;
    }
    leading(b)
}

// After the digits: an e or E.
fn after_fraction(b: u8) -> Stage
    ensures { stage_of result ≡ after_fraction_of b }
{
    if b == b'e' {
        return Stage::Letter;
    }
    if b == b'E' {
        return Stage::Letter;
    }
    Stage::Wrong
}

// After the whole digits: a point, or an e or E.
fn after_whole(b: u8) -> Stage
    ensures { stage_of result ≡ after_whole_of b }
{
    if b == b'.' {
        return Stage::Point;
    }
    after_fraction(b)
}

// After the e: a sign, or a digit.
fn after_letter(b: u8) -> Stage
    ensures { stage_of result ≡ step_of letter b }
{
    if b == b'+' {
        return Stage::Sign;
    }
    if b == b'-' {
        return Stage::Sign;
    }
    on_digit(b, Stage::Exponent, Stage::Wrong)
}

// One byte further.
fn step(stage: Stage, b: u8) -> Stage
    ensures { stage_of result ≡ step_of (stage_of stage) b }
{
    match stage {
        Stage::Start => first(b),
        Stage::Minus => leading(b),
        Stage::LeadingZero => after_whole(b),
        Stage::Whole => on_digit(b, Stage::Whole, after_whole(b)),
        Stage::Point => on_digit(b, Stage::Fraction, Stage::Wrong),
        Stage::Fraction => on_digit(b, Stage::Fraction, after_fraction(b)),
        Stage::Letter => after_letter(b),
        Stage::Sign => on_digit(b, Stage::Exponent, Stage::Wrong),
        Stage::Exponent => on_digit(b, Stage::Exponent, Stage::Wrong),
        Stage::Wrong => Stage::Wrong,
    }
}

// Whether a number may end here.
fn ends(stage: Stage) -> bool
    ensures { result ≡ ends_at (stage_of stage) }
{
    match stage {
        Stage::Start => false,
        Stage::Minus => false,
        Stage::LeadingZero => true,
        Stage::Whole => true,
        Stage::Point => false,
        Stage::Fraction => true,
        Stage::Letter => false,
        Stage::Sign => false,
        Stage::Exponent => true,
        Stage::Wrong => false,
    }
}

// Whether the bytes are a JSON number.
pub fn is_number(bytes: &[u8]) -> bool
    ensures { result ≡ is_number bytes.now }
{
    let mut stage = Stage::Start;
    for &b in bytes {
        stage = step(stage, b);
    }
    ends(stage)
}
