// The kinds of rows, as a writer tells them apart.
ghost use Rattle.std.specs.Prelude.{◌≡◌};
ghost use Rattle.writer.specs.Pieces.{is_single, is_list};

use format::answers::Kind;

// Whether a token of this kind is written whole.
pub fn is_single(kind: u32) -> bool
    ensures { result ≡ is_single kind }
{
    let Ok(kind) = Kind::try_from(kind) else {
        return false;
    };
    matches!(
        kind,
        Kind::Scalar | Kind::Text | Kind::HighPrecision | Kind::Key | Kind::Leaf | Kind::Dimension
    )
}

// Whether it is an array or an object.
pub fn is_list(kind: u32) -> bool
    ensures { result ≡ is_list kind }
{
    let Ok(kind) = Kind::try_from(kind) else {
        return false;
    };
    matches!(kind, Kind::Array | Kind::Object)
}
