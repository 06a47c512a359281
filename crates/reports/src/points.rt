// Points as lines.
ghost use mathlib.Core.List.{flatten};
ghost use Rattle.std.specs.Prelude.{◌+◌, ◌*◌, ◌≤◌, length, take};
ghost use Rattle.text.specs.Numbers.{numbers};
ghost use Rattle.text.specs.Writes.{Fits, HasRoom, Writes};
ghost use Rattle.reports.specs.Reports.{point_line, points_text, points_of};

use text::Writer;

fn put_point(w: &mut Writer<'_>, seconds: u64, values: &[i64])
    requires { HasRoom w.old (point_line seconds values.now) }
    ensures { Writes w.old (flatten (point_line seconds values.now)) w.new }
{
    w.put_decimal(seconds);
    w.put_numbers(values);
    w.put(b'\n');
}

// The first points of two rooms.
pub(crate) fn put_points(w: &mut Writer<'_>, epochs: &[u64], values: &[i64], count: usize)
    requires count_in_bounds { (count ≤ length epochs.now) × (6 * count ≤ length values.now) }
    requires values_in_bounds { Fits w.old (points_text (take count (points_of epochs.now values.now))) }
    ensures { Writes w.old (points_text (take count (points_of epochs.now values.now))) w.new }
{
    for k in 0..count {
        let from = 6 * k;
        put_point(w, epochs[k], &values[from..from + 6]);
    }
}
