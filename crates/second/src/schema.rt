// Schemas: records and fixed arrays of kinds.
use crate::bytes::{closing, is_type, width};
use crate::frames::{Frame, Task};
use crate::integers::integer;
use crate::machine::Machine;
use crate::refusals::{Reason, Refusal};
use crate::table::{Entry, Kind, Order};
use crate::token;

// The most levels, the outer schema being 1.
const LEVELS: u32 = 8;

// Opens a record or a fixed array, at its mark.
pub fn open(m: &mut Machine<'_, '_>, task: Task, mark: u8) -> Result<(), Refusal> {
    let at = m.at;
    if LEVELS <= m.levels {
        return Err(Refusal::new(Reason::Depth, at));
    }
    m.need_row(at)?;
    let opened = Frame {
        start: m.offset,
        ..m.frame(task, mark)
    };
    m.open(opened);
    m.row = m.row.saturating_add(1);
    m.levels = m.levels.saturating_add(1);
    Ok(())
}

// Closes a record or a fixed array, at its closing mark: its row is stored, and its kinds have moved the offset.
fn close(m: &mut Machine<'_, '_>, f: Frame) {
    m.stack.pop();
    m.store(
        f.row,
        Entry {
            kind: if f.mark == b'{' {
                Kind::Record
            } else {
                Kind::FixedArray
            },
            mark: f.mark,
            first: f.first,
            payload: f.start,
            length: m.offset.saturating_sub(f.start),
            count: f.count,
            order: Order::Without,
        },
    );
    m.levels = m.levels.saturating_sub(1);
    m.skip(1);
}

// Whether the record or the fixed array ends here, with one member at least.
fn ends(m: &Machine<'_, '_>, f: Frame) -> bool {
    0 < f.count && m.byte() == closing(f.mark)
}

// A field's key, or the record's end.
pub fn field(m: &mut Machine<'_, '_>, f: Frame) -> Result<(), Refusal> {
    if ends(m, f) {
        close(m, f);
        return Ok(());
    }
    m.stack.keep(f.counted().turned(Task::FieldKind));
    token::key(m)
}

// A field's kind.
pub fn field_kind(m: &mut Machine<'_, '_>, f: Frame) -> Result<(), Refusal> {
    m.stack.keep(f.turned(Task::Field));
    kind(m)
}

// After a fixed array's `[`: a `$` there is of a form that isn't read.
pub fn fixed(m: &mut Machine<'_, '_>, f: Frame) -> Result<(), Refusal> {
    if m.byte() == b'$' {
        return Err(Refusal::new(Reason::NotBuilt, f.first));
    }
    m.stack.keep(f.turned(Task::Element));
    Ok(())
}

// An element's kind, or the fixed array's end.
pub fn element(m: &mut Machine<'_, '_>, f: Frame) -> Result<(), Refusal> {
    if ends(m, f) {
        close(m, f);
        return Ok(());
    }
    m.stack.keep(f.counted());
    kind(m)
}

// A leaf's row, when its kind has been read; the offset moves by its bytes.
fn leaf(m: &mut Machine<'_, '_>, mark: u8, first: u32, bytes: u32) {
    m.add(Entry {
        kind: Kind::Leaf,
        mark,
        first,
        payload: m.offset,
        length: bytes,
        count: 0,
        order: Order::Without,
    });
    m.offset = m.offset.saturating_add(bytes);
}

// A leaf that is its mark alone; a boolean has a byte in a record.
fn plain(m: &mut Machine<'_, '_>, mark: u8) -> Result<(), Refusal> {
    let first = m.at;
    m.need_row(first)?;
    m.skip(1);
    leaf(m, mark, first, if mark == b'T' { 1 } else { width(mark) });
    Ok(())
}

// A text leaf: its mark, and how many bytes.
fn text(m: &mut Machine<'_, '_>) -> Result<(), Refusal> {
    let first = m.at;
    m.need_row(first)?;
    m.skip(1);
    let bytes = integer(m)?;
    leaf(m, b'S', first, bytes);
    Ok(())
}

// A kind.
fn kind(m: &mut Machine<'_, '_>) -> Result<(), Refusal> {
    let mark = m.byte();
    match mark {
        b'S' => text(m),
        b'H' => Err(Refusal::new(Reason::NotBuilt, m.at)),
        b'{' => open(m, Task::Field, mark),
        b'[' => open(m, Task::Fixed, mark),
        b'T' | b'Z' => plain(m, mark),
        _ if is_type(mark) => plain(m, mark),
        _ => Err(m.unexpected()),
    }
}
