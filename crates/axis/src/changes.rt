// Changes: by how much a position and a velocity moved, and whether both are within their tolerances.
ghost use Rattle.std.specs.Prelude.{◌≡◌, ◌^◌, ◌≤◌};
ghost use Rattle.exact.specs.Numerator.{Bounded};
ghost use Rattle.axis.specs.Kinds.{within};
ghost use Rattle.axis.specs.Agreement.{agrees_on, change_of, sizes, larger_motion};
ghost use Rattle.axis.specs.Ready.{Placed, Proper, Tolerable};

use crate::{Motion, Tolerances};
use exact::Exact;

fn is_within(tolerance: u64, e: Exact, before: Exact) -> bool
    requires tolerance_bound { tolerance ≤ 1048576 }
    requires bounded { Bounded (2 ^ 52) e }
    requires bounded_2 { Bounded (2 ^ 52) before }
    ensures { result ≡ within tolerance e before }
{
    let most = Exact::of_whole(tolerance as i64);
    let moved = e.apart(before);
    moved.at_most(most)
}

pub fn agrees_on(tolerances: Tolerances, m: Motion, before: Motion) -> bool
    requires tolerable { Tolerable tolerances }
    requires placed { Placed m }
    requires placed_2 { Placed before }
    ensures { result ≡ agrees_on tolerances m before }
{
    is_within(tolerances.position, m.position, before.position)
        && is_within(tolerances.velocity, m.velocity, before.velocity)
}

// By how much each of the two moved.
pub fn change(m: Motion, before: Motion) -> Motion
    requires placed { Placed m }
    requires placed_2 { Placed before }
    ensures { result ≡ sizes (change_of m before) }
{
    let position = m.position.apart(before.position);
    let velocity = m.velocity.apart(before.velocity);
    Motion { position, velocity }
}

// The larger change of each kind.
pub fn larger_change(a: Motion, b: Motion) -> Motion
    requires proper { Proper a }
    requires proper_2 { Proper b }
    ensures { result ≡ larger_motion a b }
{
    let position = a.position.larger(b.position);
    let velocity = a.velocity.larger(b.velocity);
    Motion { position, velocity }
}
