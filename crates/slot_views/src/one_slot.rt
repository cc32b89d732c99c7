// One slot: its address, and what is in it.
ghost use Rattle.std.specs.Prelude.{◌≡◌};

use crate::address::indexes;
use crate::leaf_names::of_leaf;
use describe::row;
use format::answers::Span;
use format::marks::Mark;
use format::refusals::Refusal;
use grid::{ask, shape};
use navigate::message::Message;
use navigate::narrowed::{LEAF, alone};
use navigate::way::Way;
use options::arguments::Address;
use options::lists::List;
use show::scalars::valued;
use wording::block::Block;
use wording::names::mark;

// A slot: the row of its packed array or table, the way to its leaf, and its indexes. An element of a packed array has no way.
#[derive(Clone, Copy)]
pub struct Slot {
    pub row: usize,
    pub way: Way,
    pub indexes: List,
}

// The value that is in a slot, by the rows of its leaf alone.
fn value(message: &[u8], few: &[u32; 130], indexes: &[usize], out: &mut Block) {
    let count = indexes.len();
    if shape::mark(few, 0, LEAF) == Mark::TEXT as usize {
        let answer = ask::texted(message, few, 0, LEAF, indexes, count);
        row::located(message, answer, out);
        return;
    }
    valued(out, ask::valued(message, few, 0, LEAF, indexes, count));
}

impl Slot {
    // The slot of an element or a record by its number.
    pub fn of_number(rows: &[u32], row: usize, way: Way, number: usize) -> Slot
        ensures { result.way ≡ way }
    {
        Slot {
            row,
            way,
            indexes: List {
                numbers: shape::indexes(rows, row, number),
                count: shape::rank(rows, row),
            },
        }
    }

    // Its address.
    pub fn address(&self) -> Address
        ensures row { result.row ≡ self.now.row }
        ensures indexes { result.indexes ≡ self.now.indexes }
    {
        Address {
            row: self.row,
            leaf: self.way.end(),
            indexes: self.indexes,
        }
    }

    // Where it stands in a message of this size.
    pub fn located(&self, rows: &[u32], size: u32) -> Result<Span, Refusal> {
        let few = alone(rows, self.row, &self.way);
        let indexes = indexes(&self.indexes);
        ask::located(&few, size, 0, LEAF, indexes, indexes.len())
    }

    // The name, the mark and the value of what is in it; an element of a packed array has no name.
    pub fn content(&self, message: Message, out: &mut Block) {
        let few = alone(message.rows, self.row, &self.way);
        if self.way.end().is_some() {
            of_leaf(message, &self.way, out);
            out.byte(b' ');
        }
        write!(out, "{} = ", mark(shape::mark(&few, 0, LEAF)));
        value(message.bytes, &few, indexes(&self.indexes), out);
    }
}
