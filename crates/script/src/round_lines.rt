// The answer of a round as a line, written into a lent buffer.
ghost use mathlib.Core.List.{flatten};
ghost use Rattle.text.specs.Writes.{Fits, HasRoom, Writes};
ghost use Rattle.script.specs.Lines.{round_values, nine_points, round_line};

use crate::lines::{put_motion_reported, put_natural, put_point};
use epoch_steps::RoundValues;
use steps::{ReportedMotion, ReportedPoint};
use text::Writer;

// The number, the kind and the change of an answer.
fn put_summary(w: &mut Writer<'_>, number: u8, kind: u8, change: ReportedMotion)
    requires { HasRoom w.old (round_values number kind change) }
    ensures { Writes w.old (flatten (round_values number kind change)) w.new }
{
    put_natural(w, number as u64);
    put_natural(w, kind as u64);
    put_motion_reported(w, change);
}

fn put_nine(w: &mut Writer<'_>, points: [ReportedPoint; 9])
    requires { HasRoom w.old (nine_points points) }
    ensures { Writes w.old (flatten (nine_points points)) w.new }
{
    for i in 0..9 {
        put_point(w, points[i]);
    }
}

// The call's name, and what was answered.
pub fn put_round(w: &mut Writer<'_>, call: &[u8], answer: RoundValues)
    requires { HasRoom w.old (round_line call.now answer) }
    ensures { Writes w.old (flatten (round_line call.now answer)) w.new }
{
    let change = answer.change;
    let track = answer.track;
    w.put_word(call);
    put_summary(w, answer.number, answer.kind, change);
    put_nine(w, track);
    w.put(b'\n');
}
