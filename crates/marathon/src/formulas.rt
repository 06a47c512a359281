// The formulas without sums at nine points, every number over D. A number that is too large for an i64 is none, and so is all that is made of it.
use exact::Exact;

// D times l(0) to l(10).
const COWELL: [i64; 11] = [
    159_667_200,
    -159_667_200,
    13_305_600,
    0,
    -665_280,
    -665_280,
    -583_440,
    -501_600,
    -432_476,
    -376_068,
    -330_157,
];

// D times c(0) to c(9): the velocity takes no tenth difference.
const ADAMS: [i64; 11] = [
    159_667_200,
    -79_833_600,
    -13_305_600,
    -6_652_800,
    -4_213_440,
    -2_993_760,
    -2_278_320,
    -1_815_000,
    -1_493_932,
    -1_260_182,
    0,
];

// The sum of B^i a(n), each times its weight.
fn weighted(weights: &[i64; 11], differences: &[i64; 11]) -> Option<i64> {
    let mut sum: i64 = 0;
    for (weight, difference) in weights.iter().zip(differences) {
        sum = sum.checked_add(weight.checked_mul(*difference)?)?;
    }
    Some(sum)
}

fn over_d(whole: i64, part: i64) -> Option<i64> {
    whole.checked_mul(159_667_200)?.checked_add(part)
}

fn part_of(e: Exact) -> i64 {
    i64::from(e.part)
}

fn difference(now: Exact, last: Exact) -> Option<i64> {
    let whole = now.whole.checked_sub(last.whole)?;
    let part = part_of(now).checked_sub(part_of(last))?;
    over_d(whole, part)
}

// Positions lie too far out to be numbers over D, but their second differences do not.
fn second_difference(now: Exact, last: Exact, before: Exact) -> Option<i64> {
    let latest = now.whole.checked_sub(last.whole)?;
    let earlier = last.whole.checked_sub(before.whole)?;
    let part = part_of(now).checked_sub(part_of(last))?;
    let part_earlier = part_of(last).checked_sub(part_of(before))?;
    over_d(
        latest.checked_sub(earlier)?,
        part.checked_sub(part_earlier)?,
    )
}

fn same(a: Option<i64>, b: Option<i64>) -> bool {
    a.is_some() && a == b
}

pub(crate) fn position_holds(
    differences: &[i64; 11],
    now: Exact,
    last: Exact,
    before: Exact,
) -> bool {
    same(
        second_difference(now, last, before),
        weighted(&COWELL, differences),
    )
}

pub(crate) fn velocity_holds(differences: &[i64; 11], now: Exact, last: Exact) -> bool {
    same(difference(now, last), weighted(&ADAMS, differences))
}
