// Numbers with a fixed count of decimals, read from a slice at a place.
ghost use Rattle.std.specs.Prelude.{◌≡◌, ◌≤◌, drop, length};
ghost use Rattle.decimal.specs.Reading.{more_digits, after_whole, size_at, fixed_at};

use text::{negative, positive, read_decimal};

// A number so far, and so many digits from a place on.
fn read_digits(s: &[u8], from: usize, count: usize, first: u64) -> Option<(u64, usize)>
    requires { from ≤ length s.now }
    ensures { result ≡ more_digits count (drop from s.now) first from }
{
    let mut n = first;
    for b in s.get(from..)?.get(..count)? {
        if !b.is_ascii_digit() || 999_999_999_999_999_999 < n {
            return None;
        }
        n = n * 10 + u64::from(*b - b'0');
    }
    Some((n, from + count))
}

// A whole part, and from a place on a point and the decimals.
fn read_decimals(s: &[u8], at: usize, places: usize, whole: u64) -> Option<(u64, usize)>
    ensures { result ≡ after_whole places (drop at s.now) whole at }
{
    let b = *s.get(at)?;
    if b != b'.' {
        return None;
    }
    read_digits(s, at + 1, places, whole)
}

// A number without a sign.
fn read_size(s: &[u8], at: usize, places: usize) -> Option<(u64, usize)>
    ensures { result ≡ size_at places s.now at }
{
    let (whole, next) = read_decimal(s, at)?;
    read_decimals(s, next, places, whole)
}

pub fn read_fixed(s: &[u8], at: usize, places: usize) -> Option<(i64, usize)>
    ensures { result ≡ fixed_at places s.now at }
{
    let b = *s.get(at)?;
    if b == b'-' {
        let (n, next) = read_size(s, at + 1, places)?;
        negative(n, next)
    } else {
        let (n, next) = read_size(s, at, places)?;
        positive(n, next)
    }
}
