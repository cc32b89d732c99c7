// What follows `$`: a schema, or one of the thirteen marks and `#`.
ghost use Rattle.std.specs.Prelude.{◌+◌, ◌<◌, length};
ghost use Rattle.typed.specs.Types.{TypeMeets, TypeWithin};

use format::marks::Mark;
use format::refusals::{Refusal, Refused};

// What follows `$`: a schema, or a type's mark.
#[derive(Clone, Copy)]
pub enum ContainerType {
    Schema,
    Of(u8),
}

// The type of the container at `at`.
pub fn type_at(message: &[u8], at: usize) -> Result<ContainerType, Refused>
    requires { at + 1 < length message.now }
    ensures meets { TypeMeets result message.now at }
    ensures bounds { TypeWithin result at (length message.now) }
{
    let end = message.len();
    let place = at + 2;
    if end <= place {
        return Err(Refused(Refusal::EndsTooEarly, end));
    }
    let mark = message[place];
    if mark == Mark::OBJECT {
        return Ok(ContainerType::Schema);
    }
    if !Mark(mark).is_type() {
        return Err(Refused(Refusal::NotAllowed, place));
    }
    let after = at + 3;
    if end <= after {
        return Err(Refused(Refusal::EndsTooEarly, end));
    }
    if message[after] != Mark::COUNT {
        return Err(Refused(Refusal::NotAllowed, after));
    }
    Ok(ContainerType::Of(mark))
}
