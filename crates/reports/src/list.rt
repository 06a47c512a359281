// What `oem mend` lists.
ghost use Rattle.std.specs.Prelude.{◌*◌, ◌≤◌, length};
ghost use Rattle.text.specs.Writes.{Fits, Writes};
ghost use Rattle.reports.specs.Reports.{list_of};

use crate::changes::put_changes;
use crate::refusals::put_refused;
use text::Writer;

// The changes, or the number that refuses.
pub fn put_list(w: &mut Writer<'_>, number: u8, words: &[u64], count: usize)
    requires count_in_bounds { 2 * count ≤ length words.now }
    requires count_in_bounds_2 { Fits w.old (list_of number words.now count) }
    ensures { Writes w.old (list_of number words.now count) w.new }
{
    if number == 0 {
        put_changes(w, words, count);
    } else {
        put_refused(w, number as u64);
    }
}
