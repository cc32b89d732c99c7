// Singles and doubles from their bits. A NaN's bits stay bits, in a case of their own.
ghost use Rattle.std.specs.Prelude.{◌≡◌, true};
ghost use Rattle.format.specs.Values as Values;
ghost use Rattle.format.specs.Answers.{value_of, nan_apart};

use format::answers::Value;

// The single with these bits.
pub fn single(bits: u32) -> Value
    ensures is { value_of result ≡ Values.single bits }
    ensures apart { nan_apart result ≡ true }
{
    if 0x7F80_0000 < bits % 0x8000_0000 {
        return Value::SingleNan(bits);
    }
    Value::Single(f32::from_bits(bits))
}

// The double with these bits.
pub fn double(bits: u64) -> Value
    ensures is { value_of result ≡ Values.double bits }
    ensures apart { nan_apart result ≡ true }
{
    if 0x7FF0_0000_0000_0000 < bits % 0x8000_0000_0000_0000 {
        return Value::DoubleNan(bits);
    }
    Value::Double(f64::from_bits(bits))
}
