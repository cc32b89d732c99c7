// Dimension vectors.
use crate::bytes::is_integer;
use crate::frames::{Frame, Members, Task};
use crate::integers::integer;
use crate::machine::Machine;
use crate::refusals::{Reason, Refusal};
use crate::table::Order;
use crate::token;

// The most dimensions.
const DIMENSIONS: u32 = 8;

// Opens a vector at its `[`, of which a further one may follow.
pub fn open(m: &mut Machine<'_, '_>, task: Task) {
    let opened = m.frame(task, b'[');
    m.open(opened);
    m.product = 1;
    m.order = Order::Slowest;
}

// After a `[` that may be the outer one.
pub fn outer(m: &mut Machine<'_, '_>, f: Frame) -> Result<(), Refusal> {
    m.stack.keep(f.turned(Task::Vector));
    if m.byte() == b'[' {
        m.skip(1);
        m.order = Order::Fastest;
    }
    Ok(())
}

// After the vector's own `[`.
pub fn own(m: &mut Machine<'_, '_>, f: Frame) -> Result<(), Refusal> {
    match m.byte() {
        b'$' => m.pass(f.turned(Task::VectorType)),
        b'#' => m.pass(f.turned(Task::VectorCount)),
        _ => m.stack.keep(f.turned(Task::Dimension)),
    }
    Ok(())
}

// After the vector's `$`: the mark of its integers.
pub fn type_mark(m: &mut Machine<'_, '_>, f: Frame) -> Result<(), Refusal> {
    let mark = m.byte();
    if !is_integer(mark) {
        return Err(m.unexpected());
    }
    m.pass(Frame {
        members: Members::Marked(mark),
        ..f.turned(Task::VectorHash)
    });
    Ok(())
}

// After the vector's `#`: how many dimensions.
pub fn count(m: &mut Machine<'_, '_>, f: Frame) -> Result<(), Refusal> {
    let total = integer(m)?;
    if total == 0 || DIMENSIONS < total {
        return Err(Refusal::new(Reason::Integer, f.first));
    }
    m.stack.keep(Frame {
        total: Some(total),
        ..f.turned(Task::Dimension)
    });
    Ok(())
}

// The vector's end: under a further `[` a `]` follows.
fn close(m: &mut Machine<'_, '_>) -> Result<(), Refusal> {
    if m.order == Order::Fastest {
        if m.byte() != b']' {
            return Err(m.unexpected());
        }
        m.skip(1);
    }
    m.stack.pop();
    Ok(())
}

// One dimension, by the vector's form.
fn one(m: &mut Machine<'_, '_>, f: Frame) -> Result<(), Refusal> {
    match f.members {
        Members::Marked(mark) => token::bare_dimension(m, mark),
        _ => token::marked_dimension(m),
    }
}

// A dimension, or the vector's end.
pub fn dimension(m: &mut Machine<'_, '_>, f: Frame) -> Result<(), Refusal> {
    if f.is_full() {
        return close(m);
    }
    if f.total.is_none() && m.byte() == b']' {
        if f.count == 0 {
            return Err(Refusal::new(Reason::Integer, f.first));
        }
        m.skip(1);
        return close(m);
    }
    m.stack.keep(f.counted());
    one(m, f)?;
    if DIMENSIONS <= f.count {
        return Err(Refusal::new(Reason::Integer, f.first));
    }
    Ok(())
}
