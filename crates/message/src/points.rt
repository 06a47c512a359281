// The exact values among the numbers of the points.
ghost use Rattle.std.specs.Prelude.{◌≡◌, true, ◌+◌, ◌<◌, length};
ghost use Rattle.message.specs.Request.{value_at};
ghost use Rattle.message.specs.Refusals.{exact_at};

use exact::Exact;
use text::size;

// The remainder at a place is from 0 to D - 1.
pub(crate) fn is_exact_at(points: &[i64], at: usize) -> bool
    requires { at + 1 < length points.now }
    ensures { result ≡ exact_at points.now at }
{
    let rest = points[at + 1];
    if rest < 0 {
        return false;
    }
    rest < Exact::D as i64
}

pub(crate) fn value_at(points: &[i64], at: usize) -> Exact
    requires at_in_bounds { at + 1 < length points.now }
    requires at_value { exact_at points.now at ≡ true }
    ensures { result ≡ value_at points.now at }
{
    let whole = points[at];
    let part = size(points[at + 1]) as u32;
    Exact { whole, part }
}
