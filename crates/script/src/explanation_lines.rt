// The answer to a question why as a line, written into a lent buffer.
ghost use Rattle.std.specs.Prelude.{◌≡◌};
ghost use mathlib.Core.List.{flatten};
ghost use Rattle.text.specs.Writes.{Fits, HasRoom, Writes};
ghost use Rattle.script.specs.Lines.{integer, reason_words, flag_of, difference_words, why_line};

use crate::lines::{put_natural, put_reported, put_two};
use reasons::{Differences, Explanation, Reason};
use text::Writer;

fn put_integer(w: &mut Writer<'_>, z: i64)
    requires { HasRoom w.old (integer z) }
    ensures { Writes w.old (flatten (integer z)) w.new }
{
    w.put(b' ');
    w.put_signed(z);
}

fn put_reason(w: &mut Writer<'_>, r: Reason)
    requires { HasRoom w.old (reason_words r) }
    ensures { Writes w.old (flatten (reason_words r)) w.new }
{
    let change = r.change;
    put_natural(w, r.value as u64);
    put_reported(w, change);
    put_natural(w, r.tolerance);
}

#[tactic(auto, unfolding(crate::specs::Lines::flag_of))]
fn flag_of(given: bool) -> u64
    ensures { result ≡ flag_of given }
{
    u64::from(given)
}

fn put_differences(w: &mut Writer<'_>, d: Differences)
    requires { HasRoom w.old (difference_words d) }
    ensures { Writes w.old (flatten (difference_words d)) w.new }
{
    put_natural(w, flag_of(d.given));
    put_integer(w, d.x);
    put_integer(w, d.y);
    put_integer(w, d.z);
}

// The number and the kind, the reason, and the differences.
pub fn put_why(w: &mut Writer<'_>, e: Explanation)
    requires { HasRoom w.old (why_line e) }
    ensures { Writes w.old (flatten (why_line e)) w.new }
{
    let reason = e.reason;
    let differences = e.differences;
    w.put_word(b"why");
    put_two(w, e.number as u64, e.kind as u64);
    put_reason(w, reason);
    put_differences(w, differences);
    w.put(b'\n');
}
