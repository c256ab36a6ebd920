// A float and its bit pattern, both ways, for every float and every pattern.
//
// `f32::from_bits` is not defined at a NaN's pattern, nor `f32::to_bits` at a NaN, so each is asked
// about a NaN first. All NaN patterns are read as the one NaN, and it is written as `NAN`.

#![tactic(auto)]

ghost use Rattle.std.specs.Prelude.{◌≡◌};
ghost use Rattle.std.specs.Float.{binary32};
ghost use Rattle.std.specs.Float.Ieee.{of_bits, to_bits};

use number::is_nan;

// The weight of the sign.
const SIGN: u32 = 0x8000_0000;

// The pattern of +infinity.
const INFINITY: u32 = 0x7f80_0000;

// The NaN with the sign clear and only the highest of the digits set.
const NAN: u32 = 0x7fc0_0000;

// The float of a pattern. Without its sign, a NaN's pattern is a number over +infinity's.
pub fn float_of(bits: u32) -> f32
    ensures { result ≡ of_bits binary32 bits }
{
    if bits % SIGN > INFINITY {
        return 0.0 / 0.0;
    }
    f32::from_bits(bits)
}

// The pattern of a float.
pub fn bits_of(x: f32) -> u32
    ensures { result ≡ to_bits binary32 x }
{
    if is_nan(x) {
        return NAN;
    }
    f32::to_bits(x)
}
