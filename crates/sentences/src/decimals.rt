// An exact value as a decimal, written into a lent buffer.
ghost use Rattle.std.specs.Prelude.{◌≡◌, ◌+◌, ◌≤◌, ◌<◌, length};
ghost use mathlib.Core.List.{flatten};
ghost use Rattle.exact.specs.Numerator.{D};
ghost use Rattle.text.specs.Writes.{Fits, HasRoom, Writes};
ghost use Rattle.text.specs.Numbers.{last_digits};
ghost use Rattle.sentences.specs.Decimals.{size_of, ten_decimals, shortened, sign_text, rest_text, change_text};

use decimal::put_last_digits;
use exact::Exact;
use text::Writer;

// Whole ticks, and what is left over D.
#[derive(Clone, Copy)]
pub struct Size {
    pub whole: u64,
    pub rest: u64,
}

// The last digits of a number, so many.
#[derive(Clone, Copy)]
pub struct Digits {
    pub count: usize,
    pub number: u64,
}

fn size_of(e: Exact) -> Size
    requires { e.part < D }
    ensures { result ≡ size_of e }
{
    let whole = text::size(e.whole);
    let part = e.part as u64;
    if part == 0 {
        return Size { whole, rest: 0 };
    }
    if e.whole < 0 {
        return Size {
            whole: whole - 1,
            rest: Exact::D as u64 - part,
        };
    }
    Size { whole, rest: part }
}

fn ten_decimals(rest: u64) -> u64
    requires { rest < D }
    ensures { result ≡ ten_decimals rest }
{
    let d = Exact::D as u64;
    (rest * 10_000_000_000 + d / 2) / d
}

// Ten digits without the zeros at the end.
fn shorten(n: u64) -> Digits
    ensures { last_digits result.count result.number ≡ shortened 10 n }
{
    let mut count: usize = 10;
    let mut number = n;
    while 0 < count && number % 10 == 0 {
        number /= 10;
        count -= 1;
    }
    Digits { count, number }
}

fn put_shortened(w: &mut Writer<'_>, n: u64)
    requires { Fits w.old (shortened 10 n) }
    ensures { Writes w.old (shortened 10 n) w.new }
{
    let digits = shorten(n);
    put_last_digits(w, digits.count, digits.number);
}

fn put_sign(w: &mut Writer<'_>, whole: i64)
    requires { Fits w.old (sign_text whole) }
    ensures { Writes w.old (sign_text whole) w.new }
{
    if whole < 0 {
        w.put(b'-');
        return;
    }
}

fn put_rest(w: &mut Writer<'_>, rest: u64)
    requires rest_bound { rest < D }
    requires rest_in_bounds { Fits w.old (rest_text rest) }
    ensures { Writes w.old (rest_text rest) w.new }
{
    if rest == 0 {
        return;
    }
    w.put(b'.');
    put_shortened(w, ten_decimals(rest));
}

pub(crate) fn put_change(w: &mut Writer<'_>, e: Exact)
    requires part_bound { e.part < D }
    requires room { HasRoom w.old (change_text e) }
    ensures { Writes w.old (flatten (change_text e)) w.new }
{
    let size = size_of(e);
    put_sign(w, e.whole);
    w.put_decimal(size.whole);
    put_rest(w, size.rest);
}
