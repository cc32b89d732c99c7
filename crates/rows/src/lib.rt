// Lent memory: the row table, which is 32-bit words, ten to a row, and bytes.
#![tactic(auto)]

ghost use Rattle.std.specs.Prelude.{◌≡◌, ◌+◌, ◌-◌, ◌<◌, ◌≤◌, ◌^◌, ◌++◌, length, take, replicate};
ghost use Rattle.format.specs.Limits.{limit};
ghost use Rattle.format.specs.Rows.{held_by, rows_in, row_at, word as word_in};
ghost use Rattle.rows.specs.Row.{row_of, ancestry_of, no_row, store as store_in};

// How many words a row has.
pub const ROW_WORDS: usize = 10;

// A row: its words by name, in their order.
#[derive(Clone, Copy)]
pub struct Row {
    pub kind: u32,
    pub mark: u32,
    pub first: u32,
    pub payload: u32,
    pub extent: u32,
    pub count: u32,
    pub link: u32,
    pub order: u32,
    pub parent: u32,
    pub depth: u32,
}

// A token's ancestry: its parent's row plus one, 0 for the outermost; and its depth, 0 for the outermost.
#[derive(Clone, Copy)]
pub struct Ancestry {
    pub parent: u32,
    pub depth: u32,
}

// That of the outermost token.
pub const OUTERMOST: Ancestry = Ancestry {
    parent: 0,
    depth: 0,
};

// That of the tokens that the token of a row holds: one deeper.
pub fn held_by(row: usize, ancestry: Ancestry) -> Ancestry
    requires { (row ≤ limit) × (ancestry.depth ≤ limit) }
    ensures is { ancestry_of result ≡ held_by row (ancestry_of ancestry) }
    ensures deep { result.depth ≡ ancestry.depth + 1 }
{
    let below = row + 1;
    Ancestry {
        parent: below as u32,
        depth: ancestry.depth + 1,
    }
}

// How many rows the table has.
pub fn count(rows: &[u32]) -> usize
    ensures { result ≡ rows_in rows.now }
{
    rows.len() / ROW_WORDS
}

// Word k of a row; 0 past the table's end.
pub fn word(rows: &[u32], row: usize, k: usize) -> usize
    ensures is { result ≡ word_in rows.now row k }
    ensures narrow { result < 2 ^ 32 }
{
    if rows.len() / ROW_WORDS < row {
        return 0;
    }
    let at = row * ROW_WORDS;
    match rows[at..].get(k) {
        Some(word) => *word as usize,
        None => 0,
    }
}

// The link of a row; 0 past the table's end.
pub fn link(rows: &[u32], row: usize) -> usize
    ensures { result ≡ (row_at rows.now row).link }
{
    word(rows, row, 6)
}

// No row: every word is 0.
const NO_ROW: Row = Row {
    kind: 0,
    mark: 0,
    first: 0,
    payload: 0,
    extent: 0,
    count: 0,
    link: 0,
    order: 0,
    parent: 0,
    depth: 0,
};

// A row of the table, whole; no row past the table's last.
pub fn load(rows: &[u32], row: usize) -> Row
    ensures there { row < rows_in rows.now → row_of result ≡ row_at rows.now row }
    ensures past { rows_in rows.now ≤ row → row_of result ≡ no_row }
{
    let (table, _) = rows.as_chunks::<ROW_WORDS>();
    match table.get(row) {
        Some(
            &[
                kind,
                mark,
                first,
                payload,
                extent,
                count,
                link,
                order,
                parent,
                depth,
            ],
        ) => Row {
            kind,
            mark,
            first,
            payload,
            extent,
            count,
            link,
            order,
            parent,
            depth,
        },
        None => NO_ROW,
    }
}

// Stores a row whole, or nothing where the table has no such row. A word at a time: to copy an array of them over the row was tried,
// and it costs a test for overlap and a way over the stack (8.4 ns a row in place of 2.2), where the reader spends its time.
pub fn store(rows: &mut [u32], row: usize, r: Row)
    ensures { rows.new ≡ store_in rows.old row (row_of r) }
{
    if rows.len() / ROW_WORDS <= row {
        return;
    }
    let at = row * ROW_WORDS;
    rows[at] = r.kind;
    rows[at + 1] = r.mark;
    rows[at + 2] = r.first;
    rows[at + 3] = r.payload;
    rows[at + 4] = r.extent;
    rows[at + 5] = r.count;
    rows[at + 6] = r.link;
    rows[at + 7] = r.order;
    rows[at + 8] = r.parent;
    rows[at + 9] = r.depth;
}

// What lent memory is made of: words and bytes.
pub trait Zero: Copy {
    const ZERO: Self;

    ghost ZERO: { Self };
}

impl Zero for u32 {
    const ZERO: u32 = 0;

    ghost ZERO = { 0 };
}

impl Zero for u8 {
    const ZERO: u8 = 0;

    ghost ZERO = { 0 };
}

// Zeros all of it, in a row table a remainder's words too.
pub fn clear<T: Zero>(lent: &mut [T])
    ensures { lent.new ≡ replicate (length lent.old) T.ZERO }
{
    for place in lent.iter_mut() {
        *place = T::ZERO;
    }
}

// Zeros what stands from a place on.
pub fn clear_from<T: Zero>(lent: &mut [T], from: usize)
    ensures { lent.new ≡ take from lent.old ++ replicate (length lent.old - from) T.ZERO }
{
    if lent.len() <= from {
        return;
    }
    clear(&mut lent[from..]);
}
