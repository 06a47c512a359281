// Positions in millimetres and velocities in micrometres per second, each the nearest, a tie to the even one.
ghost use Rattle.std.specs.Prelude.{◌≡◌, ◌*◌, ◌^◌, ◌≤◌, ◌<◌, pos, ◌+ℤ◌, ◌*ℤ◌};
ghost use Rattle.std.specs.Int.{w64};
ghost use Rattle.std.proofs.Common.{SFits};
ghost use Rattle.integers.specs.Nearest.{nearest_of};
ghost use Rattle.integers.specs.Parts.{Sized};
ghost use Rattle.exact.specs.Numerator.{D, Bounded};
ghost use Rattle.decimal.specs.Units.{position_units, velocity_units, quotient_of};

use crate::Quotient;
use exact::Exact;

fn divide(a: i64, d: u64) -> Quotient
    requires { (0 < d) × (d < 2 ^ 63) }
    ensures value { result ≡ quotient_of a d }
    ensures rest_below { result.rest < d }
{
    let by = d as i64;
    Quotient {
        whole: a.div_euclid(by),
        rest: a.rem_euclid(by) as u64,
    }
}

// Of q and q + 1 the one that is nearer to q + rest / d, and the even one where both are as near.
fn nearer(q: i64, rest: u64, d: u64) -> i64
    requires rest_lt_d { (rest < d) × (d < 2 ^ 63) }
    requires sfits { SFits w64 (q +ℤ pos 1) }
    ensures { result ≡ nearest_of (q *ℤ pos d +ℤ pos rest) d }
{
    if rest * 2 < d {
        return q;
    }
    if d < rest * 2 {
        return q + 1;
    }
    if q % 2 == 0 {
        return q;
    }
    q + 1
}

// The nearest to (whole + share / D) / per.
fn nearest(whole: i64, share: u64, per: u64) -> i64
    requires sized { Sized (2 ^ 62) whole }
    requires share_bound { (share < 2 ^ 48) × (0 < per) × (per < 2 ^ 28) }
    ensures { result ≡ nearest_of (whole *ℤ pos D +ℤ pos share) (D * per) }
{
    let d = Exact::D as u64;
    let carried = (share / d) as i64;
    let quotient = divide(whole + carried, per);
    nearer(quotient.whole, quotient.rest * d + share % d, d * per)
}

fn ticks_in_a_metre(k: u64) -> u64
    requires { k ≤ 16 }
    ensures { result ≡ 2 ^ k }
{
    1 << k
}

pub fn position_units(k: u64, e: Exact) -> i64
    requires k_bound { k ≤ 16 }
    requires bounded { Bounded (2 ^ 52) e }
    ensures { result ≡ position_units k e }
{
    let whole = e.whole;
    let part = e.part as u64;
    nearest(whole * 1000, part * 1000, ticks_in_a_metre(k))
}

pub fn velocity_units(k: u64, step: u64, e: Exact) -> i64
    requires k_bound { (k ≤ 16) × (1 ≤ step) × (step ≤ 3600) }
    requires bounded { Bounded (2 ^ 40) e }
    ensures { result ≡ velocity_units k step e }
{
    let whole = e.whole;
    let part = e.part as u64;
    let ticks = ticks_in_a_metre(k);
    nearest(whole * 1_000_000, part * 1_000_000, ticks * step)
}
