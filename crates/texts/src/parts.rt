// The part of the message at a place.
ghost use Rattle.std.specs.Prelude.{◌≡◌, length};
ghost use Rattle.format.specs.Outcome.{Outcome};
ghost use Rattle.format.specs.Addresses.{Region};
ghost use Rattle.format.specs.TextAnswers.{part};
ghost use Rattle.format.specs.Answers.{located, first_and_width};
ghost use Rattle.texts.specs.Memory.{Inside, pointer};

use format::answers::Span;
use format::refusals::Refusal;

// The part of the message itself at a place inside it, empty on refusal.
pub fn part_at<'a>(message: &'a [u8], place: Result<Span, Refusal>) -> &'a [u8]
    requires { Inside place (length message.now) }
    ensures is { (o : Outcome Region) → located place ≡ first_and_width o → result.now ≡ part message.now o }
    ensures here { (o : Outcome Region) → located place ≡ first_and_width o → result.ref_ptr ≡ pointer message.entry.ref_ptr o }
{
    match place {
        Err(_) => &message[..0],
        Ok(span) => {
            let end = span.first + span.width;
            &message[span.first..end]
        }
    }
}
