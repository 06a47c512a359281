// A value by its place alone: the first at fault.
ghost use Rattle.std.specs.Prelude.{◌≡◌, ◌≤◌, length};
ghost use Rattle.reasons.specs.Reasons.{placed, named, first};

use crate::Reason;
use exact::Exact;

// 0 is none.
#[tactic(auto, unfolding(crate::specs::Reasons::placed))]
pub(crate) fn place(value: u8) -> Reason
    ensures { result ≡ placed value }
{
    Reason {
        value,
        change: Exact::ZERO.reported(),
        tolerance: 0,
    }
}

// The place of the first test that holds, counted from 1.
pub(crate) fn first_place(tests: &[bool]) -> Reason
    requires { length tests.now ≤ 6 }
    ensures { result ≡ first (λ test. test) named tests.now }
{
    match tests.iter().position(|test| *test) {
        Some(i) => place(i as u8 + 1),
        None => place(0),
    }
}
