// The way to a row of a table's schema: the members that hold it, from the top-level field on, carried from row to row.
ghost use Rattle.std.specs.Prelude.{◌≡◌, ◌≤◌, ◌-◌, ◌↔◌, IsTrue, MatchOption};
ghost use Rattle.std.specs.Iterator.{at_most};
ghost use Rattle.format.specs.Rows.{word as word_in};
ghost use Rattle.format.specs.Tokens.{kind_number, leaf};
ghost use Rattle.navigate.specs.Leaves.{HasNoLeaf, IsPastFirstLeaf};

use crate::message::is_key;
use format::answers::Kind;
use format::marks::Mark;
use grid::shape::{link, schema_end};
use rows::{load, word};

// A member: its row, and how many members stand before it in what holds it, which is only known in a fixed array.
#[derive(Clone, Copy)]
pub struct Member {
    pub row: usize,
    pub place: usize,
}

// The members, and how many there are: a schema nests less deep than there is room. The room is fixed, since nothing is allocated. The
// way may be of any depth; its members are those that there is room for.
#[derive(Clone, Copy)]
pub struct Way {
    pub room: [Member; 16],
    pub depth: usize,
}

impl Way {
    // The way to a table's schema, which no member holds.
    pub fn new() -> Way
        ensures { result.depth ≤ 16 }
    {
        Way {
            room: [Member { row: 0, place: 0 }; 16],
            depth: 0,
        }
    }

    // The members, the top-level field first.
    pub fn members(&self) -> &[Member] {
        &self.room[..self.depth.min(16)]
    }

    // The row of the top-level field.
    pub fn field(&self) -> Option<usize> {
        self.members().first().map(|member| member.row)
    }

    // The row that the way leads to, the last member's.
    pub fn end(&self) -> Option<usize> {
        self.members().last().map(|member| member.row)
    }

    // How many of the members hold a row.
    fn holding(&self, rows: &[u32], row: usize) -> usize
        ensures { result ≤ self.now.depth }
    {
        let ended = self
            .members()
            .iter()
            .rev()
            .take_while(|member| link(rows, member.row) <= row);
        self.depth.saturating_sub(ended.count())
    }

    // The place of the next member at a depth: after the one that stands there.
    fn next_place(&self, depth: usize) -> usize {
        self.members()
            .get(depth)
            .map_or(0, |member| member.place.saturating_add(1))
    }

    // Goes on to the next row of the schema, which is a key or a member.
    fn step(&mut self, rows: &[u32], row: usize)
        ensures { self.old.depth ≤ 16 → self.new.depth ≤ 16 }
    {
        let depth = self.holding(rows, row);
        if is_key(load(rows, row)) {
            self.depth = depth;
            return;
        }
        let place = self.next_place(depth);
        if depth < 16 {
            self.room[depth] = Member { row, place };
            self.depth = depth + 1;
        }
    }

    // The way to a row of a table's schema, or to the schema's last row.
    pub fn to(rows: &[u32], table: usize, row: usize) -> Way
        ensures { result.depth ≤ 16 }
    {
        let end = row.saturating_add(1).min(schema_end(rows, table));
        let mut way = Way::new();
        for r in table.saturating_add(2)..end {
            way.step(rows, r);
        }
        way
    }
}

// Whether a row is a leaf's.
fn is_leaf(rows: &[u32], row: usize) -> bool
    ensures { IsTrue result ↔ (word_in rows.now row 0 ≡ kind_number leaf) }
{
    word(rows, row, 0) == Kind::Leaf.number() as usize
}

// The leaves among some rows of a table's schema, in order, each by the way to it.
#[derive(Clone, Copy)]
pub struct Leaves<'a> {
    rows: &'a [u32],
    next: usize,
    end: usize,
    way: Way,
    ghost inside: { way.depth ≤ 16 },
}

impl<'a> Leaves<'a> {
    // Those from one row on, which no member holds, before another.
    pub fn between(rows: &'a [u32], from: usize, end: usize) -> Leaves<'a> {
        Leaves {
            rows,
            next: from,
            end,
            way: Way::new(),
        }
    }

    // All leaves of a table's schema.
    pub fn of(rows: &'a [u32], table: usize) -> Leaves<'a> {
        Leaves::between(rows, table.saturating_add(2), schema_end(rows, table))
    }
}

impl<'a> Iterator for Leaves<'a> {
    type Item = Way;

    // The way to each leaf in turn, which is the way so far.
    ghost next_gives = { λ s r t. MatchOption r
        (HasNoLeaf s.rows.now s.next s.end)
        (λ way. IsPastFirstLeaf s.rows.now s.next s.end t.next × (way ≡ t.way)) };

    ghost remaining = { λ s. at_most (s.end - s.next) };

    fn next(&mut self) -> Option<Way> {
        for row in self.next..self.end {
            self.way.step(self.rows, row);
            if is_leaf(self.rows, row) {
                self.next = row + 1;
                return Some(self.way);
            }
        }
        self.next = self.end;
        None
    }
}

// The leaves of a table's schema, in groups whose slots stand together in each record: by rows all leaves are one group; by columns
// those of each top-level field are.
#[derive(Drop)]
pub struct Groups<'a> {
    rows: &'a [u32],
    next: usize,
    end: usize,
    by_columns: bool,
}

impl<'a> Groups<'a> {
    // Those of a table's schema.
    pub fn of(rows: &'a [u32], table: usize) -> Groups<'a> {
        Groups {
            rows,
            next: table.saturating_add(2),
            end: schema_end(rows, table),
            by_columns: load(rows, table).mark == Mark::OBJECT as u32,
        }
    }

    // The first row of the next group, and the row after it: the next row is the key of a field.
    fn bounds(&self) -> (usize, usize) {
        if !self.by_columns {
            return (self.next, self.end);
        }
        let field = link(self.rows, self.next);
        (field, link(self.rows, field))
    }
}

impl<'a> Iterator for Groups<'a> {
    type Item = Leaves<'a>;

    ghost remaining = { λ s. at_most (s.end - s.next) };

    fn next(&mut self) -> Option<Leaves<'a>> {
        if self.end <= self.next {
            return None;
        }
        let (from, end) = self.bounds();
        self.next = end.max(self.next + 1);
        Some(Leaves::between(self.rows, from, end))
    }
}
