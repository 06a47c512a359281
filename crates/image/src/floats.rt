// A float and its bits.
ghost use Rattle.std.specs.Prelude.{◌≡◌};
ghost use Rattle.std.specs.Float.{binary64};
ghost use Rattle.std.specs.Float.Ieee.{of_bits, to_bits};

// The float of a bit pattern. `from_bits` is promised for the pattern of a number only.
pub fn float_of(bits: u64) -> f64
    ensures { result ≡ of_bits binary64 bits }
{
    if 9_218_868_437_227_405_312 < bits & 0x7FFF_FFFF_FFFF_FFFF {
        return 0.0 / 0.0;
    }
    f64::from_bits(bits)
}

// The bits of a float. A NaN has many patterns, and `to_bits` is promised for a number only.
pub fn bits_of(x: f64) -> u64
    ensures { result ≡ to_bits binary64 x }
{
    if x.is_nan() {
        return 0x7FF8_0000_0000_0000;
    }
    f64::to_bits(x)
}
