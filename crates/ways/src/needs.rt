// What an address or a name needs of a row on its way: the kind, a mark and an order that the reader gives to a row in its place.
ghost use Rattle.std.specs.Prelude.{◌≡◌, ◌&&◌, leb, eqb};
ghost use Rattle.format.specs.Tokens.{kind_number};
ghost use Rattle.format.specs.Answers.{kind_of};
ghost use Rattle.rows.specs.Row.{row_of};
ghost use Rattle.ways.specs.Needs.{in_place, fits_of};

use format::answers::Kind;
use format::marks::Mark;
use rows::Row;

// What is needed.
#[derive(Clone, Copy)]
pub enum Need {
    Packed,
    Table,
    Key,
    Leaf,
    Schema,
    Fixed,
    // A leaf, a nested schema or a fixed array.
    Member,
    Dimension,
    // An object or a schema record.
    Named,
    Anything,
}

// A row of this kind, with such a mark, and an order up to the highest that it may have.
fn has(r: Row, kind: Kind, marked: bool, highest: u32) -> bool
    ensures { result ≡ (eqb r.kind (kind_number (kind_of kind)) && (marked && leb r.order highest)) }
{
    r.kind == kind.number() && marked && r.order <= highest
}

// A row of this kind, with a mark and an order that the reader gives to such a row on the way of an address or a name.
fn is_a(r: Row, kind: Kind) -> bool
    ensures { result ≡ in_place kind (row_of r) }
{
    let mark = Mark::of(r.mark);
    let bracket = r.mark == Mark::ARRAY as u32;
    let brace = r.mark == Mark::OBJECT as u32;
    match kind {
        Kind::Packed => has(r, kind, mark.is_type(), 2),
        Kind::Table => has(r, kind, bracket || brace, 1),
        Kind::Key => has(r, kind, r.mark == Mark::TEXT as u32, 0),
        Kind::Leaf => has(r, kind, mark.is_leaf(), 0),
        Kind::Object | Kind::SchemaRecord => has(r, kind, brace, 0),
        Kind::FixedArray => has(r, kind, bracket, 0),
        Kind::Dimension => has(r, kind, mark.is_integer(), 0),
        _ => false,
    }
}

impl Need {
    // Whether the row is what is needed.
    #[tactic(auto, unfolding(format::specs::Addresses::is_member, format::specs::Lookup::has_names))]
    pub fn fits(self, r: Row) -> bool
        ensures { result ≡ fits_of self (row_of r) }
    {
        match self {
            Need::Packed => is_a(r, Kind::Packed),
            Need::Table => is_a(r, Kind::Table),
            Need::Key => is_a(r, Kind::Key),
            Need::Leaf => is_a(r, Kind::Leaf),
            Need::Schema => is_a(r, Kind::SchemaRecord),
            Need::Fixed => is_a(r, Kind::FixedArray),
            Need::Member => {
                is_a(r, Kind::Leaf) || (is_a(r, Kind::SchemaRecord) || is_a(r, Kind::FixedArray))
            }
            Need::Dimension => is_a(r, Kind::Dimension),
            Need::Named => is_a(r, Kind::Object) || is_a(r, Kind::SchemaRecord),
            Need::Anything => true,
        }
    }
}
