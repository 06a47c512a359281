// Rounds an f64 to whole ticks by its bits: sign, exponent and fraction. Halfway between two ticks it takes the even one.
ghost use Rattle.std.specs.Prelude.{◌≡◌, ◌<◌, ◌≤◌, ◌^◌, eqb};
ghost use Rattle.std.specs.Float.{binary64};
ghost use Rattle.std.specs.Float.Ieee.{of_fields};
ghost use Rattle.std.specs.Float.Ieee.Nearest.{closest};
ghost use Rattle.ticks.specs.Round.{rounded_of, ticks_of};

use crate::Fault;

// m / 2^k to the nearest whole number, a tie to the even one.
fn round_shift(m: u64, k: u64) -> u64
    requires { (m < 2 ^ 53) × (1 ≤ k) × (k < 64) }
    ensures { result ≡ closest m (2 ^ k) }
{
    let unit: u64 = 1 << k;
    let half: u64 = unit >> 1;
    let q = m >> k;
    let rem = m & (unit - 1);
    if rem < half {
        q
    } else if half < rem {
        q + 1
    } else {
        q + (q & 1)
    }
}

// A size and a sign bit.
fn with_sign(s: u64, n: u64) -> Result<i64, Fault>
    ensures { result ≡ ticks_of (eqb s 1) n }
{
    if 268_435_456 < n {
        return Err(Fault::TooLarge);
    }
    let t = n as i64;
    if s == 1 { Ok(-t) } else { Ok(t) }
}

// The value that a sign bit, an exponent's field and a fraction's field stand for.
fn round_fields(s: u64, e: u64, f: u64) -> Result<i64, Fault>
    requires { (e < 2048) × (f < 2 ^ 52) }
    ensures { result ≡ rounded_of (of_fields binary64 (eqb s 1) e f) }
{
    if e == 2047 {
        if f == 0 {
            return Err(Fault::Infinite);
        }
        return Err(Fault::NotANumber);
    }
    // below a half
    if e < 1022 {
        return Ok(0);
    }
    // 2^29 or more
    if 1052 <= e {
        return Err(Fault::TooLarge);
    }
    with_sign(s, round_shift(4_503_599_627_370_496 + f, 1075 - e))
}

pub fn round_to_tick(x: f64) -> Result<i64, Fault>
    ensures { result ≡ rounded_of x }
{
    // A NaN has many bit patterns, so `to_bits` is promised for a number only.
    if x.is_nan() {
        return Err(Fault::NotANumber);
    }
    let b = x.to_bits();
    round_fields(b >> 63, (b >> 52) & 0x7FF, b & 0xF_FFFF_FFFF_FFFF)
}
