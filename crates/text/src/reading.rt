// Numbers read from a slice at a place: each is answered with the place past it.
ghost use Rattle.std.specs.Prelude.{◌≡◌, ◌<◌, ◌≤◌, drop, length, Some, SomeIff};
ghost use Rattle.text.specs.Reading.{going_on, decimal_at, below, not_below, signed_at, hex_digit_of, hex_at};

// A number so far, and the digits from a place on.
fn read_more(s: &[u8], from: usize, first: u64) -> Option<(u64, usize)>
    requires { from ≤ length s.now }
    ensures { result ≡ going_on (drop from s.now) first from }
{
    let mut n = first;
    for i in from..s.len() {
        let b = s[i];
        if !b.is_ascii_digit() {
            return Some((n, i));
        }
        n = n.checked_mul(10)?.checked_add(u64::from(b - b'0'))?;
    }
    Some((n, s.len()))
}

pub fn read_decimal(s: &[u8], at: usize) -> Option<(u64, usize)>
    ensures { result ≡ decimal_at s.now at }
{
    let b = *s.get(at)?;
    if b == b'0' {
        return Some((0, at + 1));
    }
    if !b.is_ascii_digit() {
        return None;
    }
    read_more(s, at + 1, u64::from(b - b'0'))
}

// A size as a number below 0, which ends at a place.
pub fn negative(n: u64, next: usize) -> Option<(i64, usize)>
    ensures { result ≡ below (Some (n, next)) }
{
    if n == 0 || 9_223_372_036_854_775_808 < n {
        return None;
    }
    Some((-1 - (n - 1) as i64, next))
}

// A size as a number that is not below 0, which ends at a place.
pub fn positive(n: u64, next: usize) -> Option<(i64, usize)>
    ensures { result ≡ not_below (Some (n, next)) }
{
    let Ok(z) = i64::try_from(n) else {
        return None;
    };
    Some((z, next))
}

pub fn read_signed(s: &[u8], at: usize) -> Option<(i64, usize)>
    ensures { result ≡ signed_at s.now at }
{
    let b = *s.get(at)?;
    if b == b'-' {
        let (n, next) = read_decimal(s, at + 1)?;
        negative(n, next)
    } else {
        let (n, next) = read_decimal(s, at)?;
        positive(n, next)
    }
}

// The digit that a byte is.
fn hex_digit_of(b: u8) -> Option<u64>
    ensures { SomeIff result (hex_digit_of b < 16) (hex_digit_of b) }
{
    match b {
        b'0'..=b'9' => Some(u64::from(b - b'0')),
        b'a'..=b'f' => Some(u64::from(b - b'a') + 10),
        _ => None,
    }
}

// The 16 digits from a place on.
pub fn read_hex(s: &[u8], at: usize) -> Option<(u64, usize)>
    ensures { result ≡ hex_at s.now at }
{
    let mut n = 0;
    for b in s.get(at..)?.get(..16)? {
        n = n * 16 + hex_digit_of(*b)?;
    }
    Some((n, at + 16))
}
