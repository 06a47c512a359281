// The numbers that a session's settings keep to.
ghost use Rattle.std.specs.Prelude.{◌≡◌};
ghost use Rattle.session.specs.Numbers.{points_hold, settings_hold};

use axis::Tolerances;

#[tactic(auto, unfolding(crate::specs::Numbers::points_hold))]
pub fn points_hold(p: usize) -> bool
    ensures { result ≡ points_hold p }
{
    (1..=9).contains(&p)
}

#[tactic(auto, unfolding(crate::specs::Numbers::settings_hold))]
pub fn settings_hold(tolerances: Tolerances, limit: u64) -> bool
    ensures { result ≡ settings_hold tolerances limit }
{
    tolerances.position <= 1_048_576 && tolerances.velocity <= 1_048_576 && (1..=8).contains(&limit)
}
