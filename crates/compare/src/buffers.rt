// The program's buffers, of which a caller knows the length alone.
ghost use Rattle.std.specs.Prelude.{◌≡◌, length};

// For a message made by chance.
pub fn message() -> [u8; 2048]
    ensures { 2048 ≡ length result }
{
    [0; 2048]
}

// A message of one byte over the limit, all `N`.
pub fn long() -> [u8; 1048577]
    ensures { 1048577 ≡ length result }
{
    [b'N'; 1048577]
}

// For a row to each byte of a message, and a remainder.
pub fn rows() -> [u32; 20490]
    ensures { 20490 ≡ length result }
{
    [0; 20490]
}
