// What `oem read` prints for a text and what was received from it.
ghost use mathlib.Core.List.{flatten, ◌++◌};
ghost use Rattle.std.specs.Prelude.{◌*◌, ◌≤◌, length, take};
ghost use Rattle.text.specs.Writes.{Fits, Writes};
ghost use Rattle.reports.specs.Reports.{AllWithin, names_in, points_text, points_of, report_of};

use crate::names::put_names;
use crate::points::put_points;
use crate::refusals::{put_refused, put_stopped};
use received::Received;
use text::Writer;

// The names, and then the points.
fn put_message(w: &mut Writer<'_>, text: &[u8], r: Received, epochs: &[u64], values: &[i64])
    requires all_within { AllWithin text.now r }
    requires count_in_bounds { (r.count ≤ length epochs.now) × (6 * r.count ≤ length values.now) }
    requires values_in_bounds { Fits w.old (flatten (names_in text.now r) ++ points_text (take r.count (points_of epochs.now values.now))) }
    ensures { Writes w.old (flatten (names_in text.now r) ++ points_text (take r.count (points_of epochs.now values.now))) w.new }
{
    put_names(w, text, r);
    put_points(w, epochs, values, r.count);
}

// The report of what was received.
pub fn put_report(w: &mut Writer<'_>, text: &[u8], r: Received, epochs: &[u64], values: &[i64])
    requires all_within { AllWithin text.now r }
    requires count_in_bounds { (r.count ≤ length epochs.now) × (6 * r.count ≤ length values.now) }
    requires values_in_bounds { Fits w.old (report_of text.now r epochs.now values.now) }
    ensures { Writes w.old (report_of text.now r epochs.now values.now) w.new }
{
    if r.number == 0 {
        put_message(w, text, r, epochs, values);
    } else if r.number == 15 {
        put_stopped(w, r.line as u64);
    } else {
        put_refused(w, r.number as u64);
    }
}
