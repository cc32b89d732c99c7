// Schemas. What their leaves are is kept, for the payload that follows.
use crate::brackets::Bracket;
use crate::integers::integer;
use crate::nest::{Nest, Open};
use crate::numbers::small;
use crate::page::Page;
use crate::token;
use format::marks::Mark;

// The most leaves of a schema; no message has so many.
const LEAVES: usize = 50;

// The steps in which a schema is written.
const STEPS: u32 = 120;

// The most levels, unless faults are written.
const LEVELS: usize = 8;

// The leaves from which on no record and no fixed array is opened.
const MANY: usize = 12;

// A leaf: its mark, its bytes, and the field that it belongs to.
#[derive(Clone, Copy)]
pub struct Leaf {
    pub mark: u8,
    pub bytes: u32,
    pub field: u32,
}

// No leaf.
const NONE: Leaf = Leaf {
    mark: 0,
    bytes: 0,
    field: 0,
};

// A schema as far as it is written: its leaves, its fields, and the bytes of its record. There is no heap, so the list of leaves is
// fixed and its length stands beside it.
#[derive(Drop)]
pub struct Schema {
    list: [Leaf; LEAVES],
    many: usize,
    pub fields: u32,
    pub bytes: u32,
}

impl Schema {
    // Before the first field.
    fn new() -> Schema {
        Schema {
            list: [NONE; LEAVES],
            many: 0,
            fields: 0,
            bytes: 0,
        }
    }

    // The leaves.
    pub fn leaves(&self) -> &[Leaf] {
        self.list.get(..self.many).unwrap_or_default()
    }

    // Keeps a leaf.
    fn keep(&mut self, mark: u8, bytes: u32) {
        let field = self.fields;
        let many = self.many;
        if let Some(next) = self.list.get_mut(many) {
            *next = Leaf { mark, bytes, field };
        }
        self.many = many.saturating_add(1);
        self.bytes = self.bytes.saturating_add(bytes);
    }
}

// Writes a leaf that is its mark alone.
fn plain(page: &mut Page<'_>, schema: &mut Schema) {
    let mark = page.pick(b"iUIulmLMhdDCBTTTZZCC");
    page.put(mark);
    schema.keep(mark, small(Mark(mark).leaf_width()));
}

// The bytes of a wide text.
fn wide(choice: u32) -> u32 {
    match choice {
        0 | 1 => 65_536,
        2 | 3 => 65_537,
        4 => 1_048_576,
        _ => 32_768,
    }
}

// Draws a text leaf's bytes: few, none too; as a fault many, up to more than a record may have.
fn text_bytes(page: &mut Page<'_>) -> u32 {
    let slip = page.slip(8);
    let drawn = page.draw(7);
    if slip { wide(drawn) } else { drawn }
}

// Writes a text leaf.
fn text(page: &mut Page<'_>, schema: &mut Schema) {
    let bytes = text_bytes(page);
    page.put(b'S');
    integer(page, bytes);
    schema.keep(b'S', bytes);
}

// Writes a kind that is refused.
fn wrong(page: &mut Page<'_>) {
    match page.draw(7) {
        0 | 1 => page.put(b'H'),
        2 | 3 => page.put_all(b"[$"),
        4 => page.put(b'N'),
        5 => page.put(b'E'),
        _ => page.put(b'F'),
    }
}

// Writes a leaf; as a fault a kind that is refused.
fn put_leaf(page: &mut Page<'_>, schema: &mut Schema) {
    if page.slip(16) {
        wrong(page);
    } else if page.draw(4) == 0 {
        text(page, schema);
    } else {
        plain(page, schema);
    }
}

// Opens a record or a fixed array of so many members.
fn open(page: &mut Page<'_>, groups: &mut Nest, bracket: Bracket, members: u32) {
    groups.push(Open {
        bracket,
        counted: false,
        left: members,
    });
    page.put(bracket.opening());
}

// Writes a kind: a record or a fixed array while some are to be opened, or now and then; else a leaf.
fn kind(page: &mut Page<'_>, schema: &mut Schema, groups: &mut Nest) {
    let drawn = page.draw(6);
    let may = drawn == 0 && groups.depth() < LEVELS && schema.many < MANY;
    if !may && !groups.is_wanted() {
        return put_leaf(page, schema);
    }
    let bracket = if page.draw(2) == 0 {
        Bracket::Brace
    } else {
        Bracket::Square
    };
    let members = page.draw(3) + 1;
    open(page, groups, bracket, members);
}

// Writes a member of the innermost bracket, or its end; the fields of the outer record are counted.
fn step(page: &mut Page<'_>, schema: &mut Schema, groups: &mut Nest) {
    let innermost = groups.innermost();
    if innermost.left == 0 {
        groups.pop();
        return page.put(innermost.bracket.closing());
    }
    groups.take_member();
    if groups.depth() == 1 {
        schema.fields = schema.fields.saturating_add(1);
    }
    if innermost.bracket == Bracket::Brace {
        token::key(page);
    }
    kind(page, schema, groups);
}

// Writes a schema, whose first kinds go so deep, with so many fields.
pub fn put_schema(page: &mut Page<'_>, depth: u32, fields: u32) -> Schema {
    let mut written = Schema::new();
    let mut groups = Nest::new(depth);
    open(page, &mut groups, Bracket::Brace, fields);
    for _ in 0..STEPS {
        if groups.depth() == 0 {
            break;
        }
        step(page, &mut written, &mut groups);
    }
    written
}
