// The lines of a message, written into a lent room.
ghost use Rattle.std.specs.Prelude.{◌≡◌, true, ◌+◌, ◌-◌, ◌*◌, ◌≤◌, ◌<◌, length};
ghost use mathlib.Core.List.{flatten};
ghost use Rattle.text.specs.Writes.{Fits, HasRoom, Writes};
ghost use Rattle.calendar.specs.Calendar.{most_seconds};
ghost use Rattle.message.specs.Request.{count_of};
ghost use Rattle.message.specs.Message.{entry, time_after, texts, field, line, line_from};
ghost use Rattle.message.specs.Refusals.{settings_hold, all_of, value_holds, point_holds};

use crate::points::value_at;
use calendar::{moment_of, put_time, time_bytes};
use decimal::{position_units, put_fixed, velocity_units};
use text::Writer;

pub(crate) fn put_entry(w: &mut Writer<'_>, keyword: &[u8], value: &[u8])
    requires { HasRoom w.old (entry keyword.now value.now) }
    ensures { Writes w.old (flatten (entry keyword.now value.now)) w.new }
{
    w.put_word(keyword);
    w.put_word(b" = ");
    w.put_word(value);
    w.put_word(b"\n");
}

pub fn put_time_entry(w: &mut Writer<'_>, keyword: &[u8], seconds: u64)
    requires seconds_le_most_seconds { seconds ≤ most_seconds }
    requires room { HasRoom w.old (entry keyword.now (time_after seconds)) }
    ensures { Writes w.old (flatten (entry keyword.now (time_after seconds))) w.new }
{
    put_entry(w, keyword, &time_bytes(moment_of(seconds)));
}

// Value k of point i, after a space.
fn put_value(w: &mut Writer<'_>, points: &[i64], i: usize, k: usize, tick: u64, step: u64)
    requires i_in_bounds { (12 * i + 12 ≤ length points.now) × (k < 6) }
    requires step_value { (settings_hold tick step ≡ true) × (value_holds tick step points.now i k ≡ true) }
    requires k_in_bounds { Fits w.old (field tick step points.now i k) }
    ensures { Writes w.old (field tick step points.now i k) w.new }
{
    let e = value_at(points, 12 * i + 2 * k);
    w.put(b' ');
    if k < 3 {
        put_fixed(w, position_units(tick, e), 6);
    } else {
        put_fixed(w, velocity_units(tick, step, e), 9);
    }
}

// The six values of point i.
fn put_values(w: &mut Writer<'_>, points: &[i64], i: usize, tick: u64, step: u64)
    requires i_in_bounds { 12 * i + 12 ≤ length points.now }
    requires step_value { (settings_hold tick step ≡ true) × (point_holds tick step points.now i ≡ true) }
    requires i_in_bounds_2 { Fits w.old (texts (field tick step points.now i) 6) }
    ensures { Writes w.old (texts (field tick step points.now i) 6) w.new }
{
    for k in 0..6 {
        put_value(w, points, i, k, tick, step);
    }
}

fn put_line(w: &mut Writer<'_>, points: &[i64], i: usize, seconds: u64, tick: u64, step: u64)
    requires seconds_le_most_seconds { (seconds ≤ most_seconds) × (12 * i + 12 ≤ length points.now) }
    requires step_value { (settings_hold tick step ≡ true) × (point_holds tick step points.now i ≡ true) }
    requires room { HasRoom w.old (line tick step points.now seconds i) }
    ensures { Writes w.old (flatten (line tick step points.now seconds i)) w.new }
{
    put_time(w, moment_of(seconds));
    put_values(w, points, i, tick, step);
    w.put_word(b"\n");
}

// The lines of all points, the first of which stands at `first`.
pub(crate) fn put_lines(w: &mut Writer<'_>, points: &[i64], first: u64, tick: u64, step: u64)
    requires step_bound { first + (count_of points.now - 1) * step ≤ most_seconds }
    requires step_value { (settings_hold tick step ≡ true) × (all_of (point_holds tick step points.now) (count_of points.now) ≡ true) }
    requires points_in_bounds { Fits w.old (texts (line_from tick step points.now first) (count_of points.now)) }
    ensures { Writes w.old (texts (line_from tick step points.now first) (count_of points.now)) w.new }
{
    let mut seconds = first;
    for i in 0..points.len() / 12 {
        put_line(w, points, i, seconds, tick, step);
        seconds += step;
    }
}
