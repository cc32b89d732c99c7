// What the row of a token writes of it.
ghost use Rattle.std.specs.Prelude.{◌≡◌, ◌∷◌, ◌++◌, ◌<◌, ◌^◌};
ghost use Rattle.format.specs.Bytes.{bytes};
ghost use Rattle.format.specs.Extensions.{id_bytes};
ghost use Rattle.format.specs.HouseForm.{small_integer};
ghost use Rattle.format.specs.Marks.{'#', '['};
ghost use Rattle.rows.specs.Row.{row_of};
ghost use Rattle.pieces.specs.Puts.{Puts};
ghost use Rattle.pieces.specs.Shapes.{shape_start, shape_end};
ghost use Rattle.writer.specs.Pieces.{dollar_sign, payload_at, single, head, middle, tail};

use crate::kinds::is_list;
use format::answers::Kind;
use format::marks::{Mark, closing_mark};
use pieces::bytes::{put, put_integer, put_part};
use pieces::{
    put_counted, put_key, put_leaf, put_scalar, put_shape_end, put_shape_start, put_text,
};
use rows::Row;
use scan::bytes::byte_at;

// The n bytes from a place on, as far as the message has them.
fn part<'a>(message: &'a [u8], at: usize, n: usize) -> &'a [u8]
    ensures { result.now ≡ bytes message.now at n }
{
    let rest = &message[at.min(message.len())..];
    &rest[..n.min(rest.len())]
}

// A token that is written whole.
pub fn put_single(message: &[u8], output: &mut [u8], at: usize, r: Row) -> usize
    requires { at < 2 ^ 58 }
    ensures { Puts output.old output.new at result (single message.now (row_of r)) }
{
    let letter = Mark::of(r.mark);
    let mark = letter.0;
    let extent = r.extent;
    let payload = part(message, r.payload as usize, extent as usize);
    let kind = r.kind;
    if kind == Kind::Scalar.number() {
        return put_scalar(output, at, mark, payload);
    }
    if kind == Kind::Key.number() {
        return put_key(output, at, extent, payload);
    }
    if kind == Kind::Leaf.number() {
        return put_leaf(output, at, mark, extent);
    }
    if kind == Kind::Dimension.number() {
        return put_integer(output, at, r.count);
    }
    put_text(output, at, mark, extent, payload)
}

// What a packed array opens with.
fn put_packed(output: &mut [u8], at: usize, mark: u8, order: u32, count: u32) -> usize
    requires { at < 2 ^ 58 }
    ensures { Puts output.old output.new at result ('[' ∷ dollar_sign ∷ mark ∷ '#' ∷ shape_start order count) }
{
    let next = put_part(output, at, &[Mark::ARRAY, Mark::TYPE, mark, Mark::COUNT]);
    put_shape_start(output, next, order, count)
}

// Before the tokens below it.
pub fn put_head(output: &mut [u8], at: usize, r: Row) -> usize
    requires { at < 2 ^ 58 }
    ensures { Puts output.old output.new at result (head (row_of r)) }
{
    let letter = Mark::of(r.mark);
    let mark = letter.0;
    if is_list(r.kind) {
        return put_counted(output, at, mark, r.count);
    }
    if r.kind == Kind::Packed.number() {
        return put_packed(output, at, mark, r.order, r.count);
    }
    let next = put(output, at, mark);
    if r.kind == Kind::Table.number() {
        return put(output, next, Mark::TYPE);
    }
    next
}

// Between the schema of a table and its dimensions.
pub fn put_middle(output: &mut [u8], at: usize, r: Row) -> usize
    requires { at < 2 ^ 58 }
    ensures { Puts output.old output.new at result (middle (row_of r)) }
{
    let next = put(output, at, Mark::COUNT);
    put_shape_start(output, next, r.order, r.count)
}

// What ends a packed array or a table: its shape's end and the n bytes of its payload.
fn put_payload(
    message: &[u8],
    output: &mut [u8],
    at: usize,
    order: u32,
    first: u32,
    n: u32,
) -> usize
    requires { at < 2 ^ 58 }
    ensures { Puts output.old output.new at result (shape_end order ++ bytes message.now first n) }
{
    let next = put_shape_end(output, at, order);
    let payload = part(message, first as usize, n as usize);
    put_part(output, next, payload)
}

// The id of the extension that begins at `first`: its mark and its number, as they stand in the message.
fn put_id(message: &[u8], output: &mut [u8], at: usize, first: u32) -> usize
    requires { at < 2 ^ 60 }
    ensures { Puts output.old output.new at result (id_bytes message.now first) }
{
    let place = first as usize + 1;
    let mark = byte_at(message, place);
    let letter = Mark(mark);
    let width = letter.width();
    let from = first as usize + 2;
    let number = part(message, from, width);
    put_scalar(output, at, mark, number)
}

// An extension after its mark: its id, its length and its bytes.
fn put_extension(message: &[u8], output: &mut [u8], at: usize, r: Row) -> usize
    requires { at < 2 ^ 58 }
    ensures { Puts output.old output.new at result (id_bytes message.now r.first ++ (small_integer r.extent ++ payload_at message.now (row_of r))) }
{
    let after = put_id(message, output, at, r.first);
    let payload = part(message, r.payload as usize, r.extent as usize);
    put_key(output, after, r.extent, payload)
}

// After the tokens below it.
pub fn put_tail(message: &[u8], output: &mut [u8], at: usize, r: Row) -> usize
    requires { at < 2 ^ 58 }
    ensures { Puts output.old output.new at result (tail message.now (row_of r)) }
{
    if is_list(r.kind) {
        return at;
    }
    if r.kind == Kind::Packed.number() {
        return put_payload(message, output, at, r.order, r.payload, r.extent);
    }
    if r.kind == Kind::Table.number() {
        return put_payload(message, output, at, r.order, r.payload, r.extent);
    }
    if r.kind == Kind::Extension.number() {
        return put_extension(message, output, at, r);
    }
    put(
        output,
        at,
        closing_mark(r.kind == Kind::SchemaRecord.number()),
    )
}
