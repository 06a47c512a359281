// How long texts are, before any is written. Where a value does not hold, the length is 0.
ghost use Rattle.std.specs.Prelude.{◌≡◌, true, ◌+◌, ◌*◌, ◌^◌, ◌≤◌, ◌<◌, length};
ghost use Rattle.text.specs.Numbers.{decimal};
ghost use Rattle.decimal.specs.Text.{few_digits, fixed_text, position_text, velocity_text};
ghost use Rattle.exact.specs.Numerator.{D};
ghost use Rattle.message.specs.Message.{value_text, field, line_from};
ghost use Rattle.message.specs.Refusals.{settings_hold, position_holds, velocity_holds, holds_as, value_holds, point_holds};
ghost use Rattle.message.specs.Measures.{length_if, data_length};

use crate::points::{is_exact_at, value_at};
use decimal::{has_few_digits, position_units, velocity_units};
use exact::Exact;
use text::size;

fn digits(n: u64) -> usize
    ensures { (result ≡ length (decimal n)) × (result ≤ 20) }
{
    let mut left = n;
    let mut count: usize = 1;
    while 9 < left {
        left /= 10;
        count += 1;
    }
    count
}

// A number of at most 16 digits, so many of them after the point.
fn number_length(n: i64, places: usize, unit: u64) -> usize
    requires { (places ≤ 15) × (unit ≡ 10 ^ places) }
    ensures { (result ≡ length_if (few_digits places n) (fixed_text places n)) × (result ≤ 18) }
{
    if !has_few_digits(n) {
        return 0;
    }
    let length = digits(size(n) / unit) + 1 + places;
    if n < 0 { length + 1 } else { length }
}

fn position_length(tick: u64, e: Exact) -> usize
    requires { (tick ≤ 16) × (e.part < D) }
    ensures { (result ≡ length_if (position_holds tick e) (position_text tick e)) × (result ≤ 18) }
{
    if !e.is_position() {
        return 0;
    }
    number_length(position_units(tick, e), 6, 1_000_000)
}

fn velocity_length(tick: u64, step: u64, e: Exact) -> usize
    requires { (settings_hold tick step ≡ true) × (e.part < D) }
    ensures { (result ≡ length_if (velocity_holds tick step e) (velocity_text tick step e)) × (result ≤ 18) }
{
    if !e.is_velocity() {
        return 0;
    }
    number_length(velocity_units(tick, step, e), 9, 1_000_000_000)
}

// Value k of a point.
fn length_as(k: usize, tick: u64, step: u64, e: Exact) -> usize
    requires { (settings_hold tick step ≡ true) × (e.part < D) }
    ensures { (result ≡ length_if (holds_as tick step k e) (value_text tick step k e)) × (result ≤ 18) }
{
    if k < 3 {
        position_length(tick, e)
    } else {
        velocity_length(tick, step, e)
    }
}

// Value k of point i, after a space.
fn value_length(points: &[i64], i: usize, k: usize, tick: u64, step: u64) -> usize
    requires i_in_bounds { (12 * i + 12 ≤ length points.now) × (k < 6) }
    requires step_value { settings_hold tick step ≡ true }
    ensures { (result ≡ length_if (value_holds tick step points.now i k) (field tick step points.now i k)) × (result ≤ 19) }
{
    let at = 12 * i + 2 * k;
    if !is_exact_at(points, at) {
        return 0;
    }
    let e = value_at(points, at);
    let length = length_as(k, tick, step, e);
    if length == 0 { 0 } else { length + 1 }
}

// The line of point i: a time, six values and a newline.
fn line_length(points: &[i64], i: usize, tick: u64, step: u64) -> usize
    requires i_in_bounds { 12 * i + 12 ≤ length points.now }
    requires step_value { settings_hold tick step ≡ true }
    ensures { (result ≡ length_if (point_holds tick step points.now i) (line_from tick step points.now 0 i)) × (result ≤ 134) }
{
    let mut length = 20;
    for k in 0..6 {
        let more = value_length(points, i, k, tick, step);
        if more == 0 {
            return 0;
        }
        length += more;
    }
    length
}

// The lines of all points.
pub(crate) fn lines_length(points: &[i64], tick: u64, step: u64) -> usize
    requires points_len_bound { length points.now ≤ 2 ^ 48 }
    requires step_value { settings_hold tick step ≡ true }
    ensures { (result ≡ data_length tick step points.now) × (result ≤ 2 ^ 56) }
{
    let mut length = 0;
    for i in 0..points.len() / 12 {
        let more = line_length(points, i, tick, step);
        if more == 0 {
            return 0;
        }
        length += more;
    }
    length
}
