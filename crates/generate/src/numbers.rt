// Numbers.
ghost use Rattle.std.specs.Prelude.{◌≡◌, ◌≤◌, ◌%◌};

// The most that a product is told as: one over the limit of a dimension.
const OVER: u64 = 1_048_577;

// The product, or one over the limit.
pub fn times(a: u32, b: u32) -> u32 {
    (u64::from(a) * u64::from(b)).min(OVER) as u32
}

// The low byte of a number.
pub fn low(x: u32) -> u8
    ensures { result ≡ x % 256 }
{
    (x % 256) as u8
}

// A number that is known to be small.
pub fn small(x: usize) -> u32
    ensures { result ≤ x }
{
    if x < 0x4000_0000 { x as u32 } else { 0 }
}
