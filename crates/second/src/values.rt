// Values: the message's, and those of arrays and objects.
use crate::bytes::{closing, is_scalar, is_type};
use crate::extension::extension;
use crate::frames::{Frame, Members, Task};
use crate::integers::integer;
use crate::machine::Machine;
use crate::refusals::{Reason, Refusal};
use crate::table::{Entry, Kind, Order};
use crate::{schema, token, vectors};

// The most levels of values, the outermost container being 1.
const LEVELS: usize = 32;

// Opens an array or an object, at its mark. The message's frame is open too, so the frames open are one more than the levels.
fn open(m: &mut Machine<'_, '_>, mark: u8) -> Result<(), Refusal> {
    let at = m.at;
    if LEVELS < m.stack.open() {
        return Err(Refusal::new(Reason::Depth, at));
    }
    m.need_row(at)?;
    let opened = m.frame(Task::Header, mark);
    m.open(opened);
    m.row = m.row.saturating_add(1);
    Ok(())
}

// A value, at its mark.
fn value(m: &mut Machine<'_, '_>) -> Result<(), Refusal> {
    let mark = m.byte();
    match mark {
        b'S' => token::text(m, Kind::Text),
        b'H' => token::text(m, Kind::HighPrecision),
        b'E' => extension(m),
        b'[' | b'{' => open(m, mark),
        _ if is_scalar(mark) => token::scalar(m),
        _ => Err(m.unexpected()),
    }
}

// The message's value.
pub fn message_value(m: &mut Machine<'_, '_>, f: Frame) -> Result<(), Refusal> {
    m.stack.keep(f.turned(Task::After));
    m.skip_noops();
    value(m)
}

// What comes after the message's value: nothing but `N`.
pub fn after_value(m: &mut Machine<'_, '_>) -> Result<(), Refusal> {
    m.skip_noops();
    if m.at < m.end() {
        return Err(Refusal::new(Reason::Trailing, m.at));
    }
    m.stack.pop();
    Ok(())
}

// After an array's or an object's opening mark.
pub fn header(m: &mut Machine<'_, '_>, f: Frame) -> Result<(), Refusal> {
    match m.byte() {
        b'$' => m.pass(f.turned(Task::Type)),
        b'#' => m.pass(f.turned(Task::Count)),
        _ => m.stack.keep(Frame {
            start: m.at,
            ..f.turned(Task::Member)
        }),
    }
    Ok(())
}

// After `$`: a type's mark, or a schema.
pub fn type_mark(m: &mut Machine<'_, '_>, f: Frame) -> Result<(), Refusal> {
    let mark = m.byte();
    if is_type(mark) {
        m.pass(Frame {
            members: Members::Marked(mark),
            ..f.turned(Task::Hash)
        });
        return Ok(());
    }
    if mark != b'{' {
        return Err(m.unexpected());
    }
    m.stack.keep(Frame {
        members: Members::Records,
        ..f.turned(Task::Hash)
    });
    m.offset = 0;
    schema::open(m, Task::Field, mark)
}

// After a type: `#`, and then a count.
pub fn hash(m: &mut Machine<'_, '_>, f: Frame, count: Task) -> Result<(), Refusal> {
    if m.byte() != b'#' {
        return Err(m.unexpected());
    }
    m.pass(f.turned(count));
    Ok(())
}

// After `#`: a count, or the dimensions of a packed array or a table. Only a packed array's may be wrapped.
pub fn count(m: &mut Machine<'_, '_>, f: Frame) -> Result<(), Refusal> {
    match f.members {
        Members::Records => product(m, f, Task::Vector),
        Members::Marked(_) if f.mark == b'[' => product(m, f, Task::Outer),
        _ => members(m, f),
    }
}

// The count of a packed array or a table, or its dimensions.
fn product(m: &mut Machine<'_, '_>, f: Frame, vector: Task) -> Result<(), Refusal> {
    m.stack.keep(f.turned(Task::Payload));
    if m.byte() == b'[' {
        vectors::open(m, vector);
        return Ok(());
    }
    m.product = integer(m)?;
    m.order = Order::Without;
    Ok(())
}

// The count of an array's or an object's members.
fn members(m: &mut Machine<'_, '_>, f: Frame) -> Result<(), Refusal> {
    let total = integer(m)?;
    m.stack.keep(Frame {
        total: Some(total),
        start: m.at,
        ..f.turned(Task::Member)
    });
    Ok(())
}

// Stores the row of an array or an object, whose payload ends here.
fn close(m: &mut Machine<'_, '_>, f: Frame) {
    m.stack.pop();
    m.store(
        f.row,
        Entry {
            kind: if f.mark == b'[' {
                Kind::Array
            } else {
                Kind::Object
            },
            mark: f.mark,
            first: f.first,
            payload: f.start,
            length: m.at.saturating_sub(f.start),
            count: f.count,
            order: Order::Without,
        },
    );
}

// A member of an array or an object, or its end.
pub fn member(m: &mut Machine<'_, '_>, f: Frame) -> Result<(), Refusal> {
    if f.is_full() {
        close(m, f);
        return Ok(());
    }
    if f.members == Members::Any {
        m.skip_noops();
    }
    if f.total.is_none() && m.byte() == closing(f.mark) {
        close(m, f);
        m.skip(1);
        return Ok(());
    }
    if f.mark == b'[' {
        m.stack.keep(f.counted());
        return value(m);
    }
    m.stack.keep(f.counted().turned(Task::Value));
    token::key(m)
}

// The value of an object's member, after its key.
pub fn member_value(m: &mut Machine<'_, '_>, f: Frame) -> Result<(), Refusal> {
    m.stack.keep(f.turned(Task::Member));
    match f.members {
        Members::Marked(mark) => token::unmarked(m, mark),
        _ => {
            m.skip_noops();
            value(m)
        }
    }
}
