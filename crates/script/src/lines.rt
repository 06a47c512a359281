// Answers and records as lines, written into a lent buffer.
ghost use Rattle.std.specs.Prelude.{◌≡◌};
ghost use mathlib.Core.List.{flatten};
ghost use Rattle.text.specs.Writes.{Fits, HasRoom, Writes};
ghost use Rattle.script.specs.Lines.{natural, two, exactly, value, motion_values, point_values, answer_values, answer_line};
ghost use Rattle.script.specs.Lines.{motion_words, axis_words, number_of, settings_words, axes_words, record_line, no_call_line};

use axis::{Axis, Motion};
use exact::{Exact, Reported};
use image::bits_of;
use session::{Session, State};
use steps::{Answer, ReportedMotion, ReportedPoint};
use text::Writer;

// ---- words

pub(crate) fn put_natural(w: &mut Writer<'_>, n: u64)
    requires { HasRoom w.old (natural n) }
    ensures { Writes w.old (flatten (natural n)) w.new }
{
    w.put(b' ');
    w.put_decimal(n);
}

pub(crate) fn put_two(w: &mut Writer<'_>, m: u64, n: u64)
    requires { HasRoom w.old (two m n) }
    ensures { Writes w.old (flatten (two m n)) w.new }
{
    put_natural(w, m);
    put_natural(w, n);
}

fn put_exact(w: &mut Writer<'_>, e: Exact)
    requires { HasRoom w.old (exactly e) }
    ensures { Writes w.old (flatten (exactly e)) w.new }
{
    w.put(b' ');
    w.put_signed(e.whole);
    put_natural(w, e.part as u64);
}

pub(crate) fn put_reported(w: &mut Writer<'_>, r: Reported)
    requires { HasRoom w.old (value r) }
    ensures { Writes w.old (flatten (value r)) w.new }
{
    put_exact(w, r.exact);
    w.put(b' ');
    w.put_hex(bits_of(r.report));
}

// ---- an answer

pub(crate) fn put_motion_reported(w: &mut Writer<'_>, m: ReportedMotion)
    requires { HasRoom w.old (motion_values m) }
    ensures { Writes w.old (flatten (motion_values m)) w.new }
{
    put_reported(w, m.position);
    put_reported(w, m.velocity);
}

pub(crate) fn put_point(w: &mut Writer<'_>, q: ReportedPoint)
    requires { HasRoom w.old (point_values q) }
    ensures { Writes w.old (flatten (point_values q)) w.new }
{
    put_motion_reported(w, q.x);
    put_motion_reported(w, q.y);
    put_motion_reported(w, q.z);
}

fn put_values(w: &mut Writer<'_>, answer: Answer)
    requires { HasRoom w.old (answer_values answer) }
    ensures { Writes w.old (flatten (answer_values answer)) w.new }
{
    put_natural(w, answer.number as u64);
    put_natural(w, answer.kind as u64);
    put_point(w, answer.point);
    put_motion_reported(w, answer.change);
}

// The call's name, and what was answered.
pub fn put_answer(w: &mut Writer<'_>, call: &[u8], answer: Answer)
    requires { HasRoom w.old (answer_line call.now answer) }
    ensures { Writes w.old (flatten (answer_line call.now answer)) w.new }
{
    w.put_word(call);
    put_values(w, answer);
    w.put(b'\n');
}

// ---- a record

fn put_motion(w: &mut Writer<'_>, m: Motion)
    requires { HasRoom w.old (motion_words m) }
    ensures { Writes w.old (flatten (motion_words m)) w.new }
{
    put_exact(w, m.position);
    put_exact(w, m.velocity);
}

fn put_axis(w: &mut Writer<'_>, a: Axis)
    requires { HasRoom w.old (axis_words a) }
    ensures { Writes w.old (flatten (axis_words a)) w.new }
{
    let samples = a.samples;
    put_exact(w, a.first);
    put_exact(w, a.second);
    put_motion(w, a.older);
    w.put_numbers(&samples);
    put_motion(w, a.estimate);
}

fn number_of(s: State) -> u64
    ensures { result ≡ number_of s }
{
    match s {
        State::Closed => 0,
        State::Settled => 1,
        State::Awaiting => 2,
        State::Starting => 3,
    }
}

fn put_settings(w: &mut Writer<'_>, s: Session)
    requires { HasRoom w.old (settings_words s) }
    ensures { Writes w.old (flatten (settings_words s)) w.new }
{
    let state = s.state;
    let tolerances = s.tolerances;
    put_natural(w, number_of(state));
    put_natural(w, s.points as u64);
    put_two(w, tolerances.position, tolerances.velocity);
    put_natural(w, s.limit);
}

fn put_axes(w: &mut Writer<'_>, s: Session)
    requires { HasRoom w.old (axes_words s) }
    ensures { Writes w.old (flatten (axes_words s)) w.new }
{
    put_axis(w, s.x);
    put_axis(w, s.y);
    put_axis(w, s.z);
}

pub fn put_record(w: &mut Writer<'_>, s: Session)
    requires { HasRoom w.old (record_line s) }
    ensures { Writes w.old (flatten (record_line s)) w.new }
{
    w.put_word(b"record");
    put_settings(w, s);
    put_two(w, s.accepted, s.corrections);
    put_axes(w, s);
    w.put(b'\n');
}

// ---- a line that is no call

pub fn put_no_call(w: &mut Writer<'_>, number: u64)
    requires { HasRoom w.old (no_call_line number) }
    ensures { Writes w.old (flatten (no_call_line number)) w.new }
{
    w.put_word(b"line ");
    w.put_decimal(number);
    w.put_word(b": not a call\n");
}
