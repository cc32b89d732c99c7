// An accepted message, and what its rows are.
ghost use Rattle.std.specs.Prelude.{◌≡◌, ◌+◌, ◌-◌, ◌<◌, ◌≤◌, ◌^◌, ◌↔◌, ◌≢◌, IsTrue, IfSome, IsNone, min, length, slice_get};
ghost use Rattle.format.specs.Rows.{row_at, rows_in};
ghost use Rattle.format.specs.Tokens as Tokens;
ghost use Rattle.format.specs.Tokens.{kind_number, key};
ghost use Rattle.format.specs.Answers as Answers;
ghost use Rattle.rows.specs.Row.{row_of, no_row};

use format::answers::Kind;
use rows::{Row, count, link, load};

// Its bytes, and its rows: all of them, or the first for which there was room.
#[derive(Clone, Copy)]
pub struct Message<'a> {
    pub bytes: &'a [u8],
    pub rows: &'a [u32],
}

impl<'a> Message<'a> {
    // The byte at a place, if there is one.
    pub fn byte(self, at: usize) -> Option<u8>
        ensures { result ≡ slice_get self.entry.bytes.now at }
    {
        self.bytes.get(at).copied()
    }

    // How many bytes it has, as a word.
    pub fn size(self) -> u32
        ensures { length self.entry.bytes.now < 2 ^ 32 → result ≡ length self.entry.bytes.now }
    {
        u32::try_from(self.bytes.len()).unwrap_or(u32::MAX)
    }

    // A row; one of no kind where it is not held.
    pub fn row(self, row: usize) -> Row
        ensures there { row < rows_in self.entry.rows.now → row_of result ≡ row_at self.entry.rows.now row }
        ensures past { rows_in self.entry.rows.now ≤ row → row_of result ≡ no_row }
    {
        load(self.rows, row)
    }

    // How many rows the message has: the link of its one value.
    pub fn needed(self) -> usize
        ensures { result ≡ (row_at self.entry.rows.now 0).link }
    {
        link(self.rows, 0)
    }

    // How many rows before one are held.
    pub fn before(self, end: usize) -> usize
        ensures { result ≡ min end (rows_in self.entry.rows.now) }
    {
        end.min(count(self.rows))
    }

    // How many rows before one are not held.
    pub fn missing(self, end: usize) -> usize
        ensures { result ≡ end - rows_in self.entry.rows.now }
    {
        end.saturating_sub(count(self.rows))
    }

    // How many of its rows are held.
    pub fn held(self) -> usize
        ensures { result ≡ min (row_at self.entry.rows.now 0).link (rows_in self.entry.rows.now) }
    {
        self.before(self.needed())
    }

    // Whether some of the rows below a row are not held.
    pub fn is_cut(self, r: Row) -> bool
        ensures { IsTrue result ↔ (rows_in self.entry.rows.now < r.link) }
    {
        count(self.rows) < r.link as usize
    }

    // The row of a member's key, which is the row before it, if it has one.
    pub fn key(self, member: usize) -> Option<usize>
        ensures before { IfSome result (λ row. row + 1 ≡ member) }
        ensures kind { IfSome result (λ row. (row_at self.entry.rows.now row).kind ≡ kind_number key) }
        ensures none { IsNone result → 0 < member → member ≤ rows_in self.entry.rows.now → (row_at self.entry.rows.now (member - 1)).kind ≢ kind_number key }
    {
        let row = member.checked_sub(1)?;
        if is_key(self.row(row)) {
            return Some(row);
        }
        None
    }
}

// What a row is; none where there is no row.
pub fn kind_of(r: Row) -> Option<Kind>
    ensures some { IfSome result (λ kind. kind_number (Answers.kind_of kind) ≡ r.kind) }
    ensures none { IsNone result → (kind : Tokens.Kind) → kind_number kind ≢ r.kind }
{
    Kind::try_from(r.kind).ok()
}

// Whether a row is a key's.
pub fn is_key(r: Row) -> bool
    ensures { IsTrue result ↔ (r.kind ≡ kind_number key) }
{
    r.kind == Kind::Key.number()
}

// The byte after a row's payload.
pub fn payload_end(r: Row) -> usize
    ensures { result ≡ r.payload + r.extent }
{
    r.payload as usize + r.extent as usize
}
