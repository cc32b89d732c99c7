// Half to single, by masks and shifts of sign, exponent and fraction.
ghost use Rattle.std.specs.Prelude.{◌≡◌, false, ◌<◌, ◌^◌};
ghost use Rattle.std.specs.Float.{binary32};
ghost use Rattle.std.specs.Float.Ieee.{to_bits};
ghost use Rattle.format.specs.Half.{half_value, single};

// The single with the value of a half whose exponent is 0, without its sign: its fraction times 2 ^ -24. The fraction moves up until
// a one stands in front of its ten digits, and the exponent falls by as many places.
fn subnormal(fraction: u32) -> u32
    requires { fraction < 2 ^ 10 }
    ensures is { result ≡ to_bits binary32 (half_value false 0 fraction) }
    ensures unsigned { result < 2 ^ 31 }
{
    if fraction == 0 {
        return 0;
    }
    let places = fraction.leading_zeros() - 21;
    let digits = fraction << places;
    let exponent = 113 - places;
    exponent << 23 | (digits & 0x3FF) << 13
}

// The bits of the single that means the same as a half; a NaN keeps its sign, its fraction moving up 13 bits.
pub fn single_bits(half: u16) -> u32
    ensures { result ≡ single half }
{
    let bits = half as u32;
    let sign = (bits & 0x8000) << 16;
    let exponent = (bits >> 10) & 0x1F;
    let fraction = bits & 0x3FF;
    if exponent == 31 {
        return sign | 0x7F80_0000 | fraction << 13;
    }
    if exponent == 0 {
        return sign | subnormal(fraction);
    }
    sign | (exponent + 112) << 23 | fraction << 13
}
