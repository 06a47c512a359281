// The corrector's series at points before the newest, as sums over the samples, which are newest first.
#![tactic(auto)]

ghost use Rattle.std.specs.Prelude.{◌≡◌, true, ◌<◌};
ghost use Rattle.integers.specs.Differences.{at, by_differences};
ghost use Rattle.coefficients.specs.Formulas.{Small};
ghost use Rattle.epoch_coefficients.specs.Formulas.{earlier_position, earlier_velocity, has_centre};

mod tables;

// Whether p points have a centre with points on both sides.
#[tactic(auto, unfolding(crate::specs::Formulas::has_centre))]
pub fn has_centre(p: usize) -> bool
    ensures { result ≡ has_centre p }
{
    matches!(p, 3 | 5 | 7 | 9)
}

// D times what the series gives to the position j steps before the newest point.
pub fn position_sum(p: usize, j: usize, samples: [i64; 9]) -> i64
    requires p_value { has_centre p ≡ true }
    requires j_lt_p { j < p }
    requires small { Small samples }
    ensures { result ≡ by_differences (earlier_position j p) (at samples) }
{
    coefficients::combine(tables::position(p, j), 0, p, samples)
}

// The same of the velocity. Only the table differs, and `combine` is what both call.
pub fn velocity_sum(p: usize, j: usize, samples: [i64; 9]) -> i64
    requires p_value { has_centre p ≡ true }
    requires j_lt_p { j < p }
    requires small { Small samples }
    ensures { result ≡ by_differences (earlier_velocity j p) (at samples) }
{
    coefficients::combine(tables::velocity(p, j), 0, p, samples)
}
