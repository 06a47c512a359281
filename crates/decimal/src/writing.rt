// Numbers with a fixed count of decimals, written into a lent buffer.
ghost use Rattle.std.specs.Prelude.{◌≡◌, ◌≤◌};
ghost use Rattle.text.specs.Writes.{Fits, Writes};
ghost use Rattle.text.specs.Numbers.{last_digits};
ghost use Rattle.decimal.specs.Text.{fixed, fixed_text, position_fits, velocity_fits};

use text::{Writer, size};

// The last k digits.
pub fn put_last_digits(w: &mut Writer<'_>, k: usize, n: u64)
    requires { Fits w.old (last_digits k n) }
    ensures { Writes w.old (last_digits k n) w.new }
{
    if 0 < k {
        put_last_digits(w, k - 1, n / 10);
        w.put(b'0' + (n % 10) as u8);
    }
}

// A number that is not below 0.
fn put_size(w: &mut Writer<'_>, n: u64, places: usize)
    requires places_bound { places ≤ 18 }
    requires n_in_bounds { Fits w.old (fixed places n) }
    ensures { Writes w.old (fixed places n) w.new }
{
    let whole = n / 10u64.pow(places as u32);
    w.put_decimal(whole);
    w.put(b'.');
    put_last_digits(w, places, n);
}

pub fn put_fixed(w: &mut Writer<'_>, n: i64, places: usize)
    requires places_bound { places ≤ 18 }
    requires n_in_bounds { Fits w.old (fixed_text places n) }
    ensures { Writes w.old (fixed_text places n) w.new }
{
    if n < 0 {
        w.put(b'-');
    }
    put_size(w, n.unsigned_abs(), places);
}

// At most 16 digits in all, as a position and as a velocity: the two come to the same.
pub fn has_few_digits(n: i64) -> bool
    ensures { (result ≡ position_fits n) × (result ≡ velocity_fits n) }
{
    size(n) < 10_000_000_000_000_000
}
