// What is said of a correction that is not accepted, written into a lent buffer.
ghost use Rattle.std.specs.Prelude.{◌≡◌, ◌<◌};
ghost use mathlib.Core.List.{flatten};
ghost use Rattle.exact.specs.Numerator.{D};
ghost use Rattle.text.specs.Writes.{Fits, HasRoom, Writes};
ghost use Rattle.sentences.specs.Sentences.{moved, against, counted, over_tolerance, named, said, is_accepted, told, sentence};

use crate::decimals::put_change;
use crate::words::{put_cardinal, put_name, put_ordinal, put_unit};
use reasons::{Explanation, Reason};
use session::Session;
use text::Writer;

// ---- a value that moved by more than its tolerance

fn put_moved(w: &mut Writer<'_>, r: Reason)
    requires part_bound { r.change.exact.part < D }
    requires room { HasRoom w.old (moved r) }
    ensures { Writes w.old (flatten (moved r)) w.new }
{
    let change = r.change.exact;
    put_name(w, r.value);
    w.put_word(b" moved ");
    put_change(w, change);
    put_unit(w, r.value);
}

fn put_against(w: &mut Writer<'_>, tolerance: u64)
    requires { HasRoom w.old (against tolerance) }
    ensures { Writes w.old (flatten (against tolerance)) w.new }
{
    w.put_word(b", its tolerance is ");
    w.put_decimal(tolerance);
    w.put_word(b"; ");
}

fn put_counted(w: &mut Writer<'_>, s: Session)
    requires { HasRoom w.old (counted s) }
    ensures { Writes w.old (flatten (counted s)) w.new }
{
    put_ordinal(w, s.corrections);
    w.put_word(b" correction of ");
    put_cardinal(w, s.limit);
}

fn put_over(w: &mut Writer<'_>, s: Session, r: Reason, end: &[u8])
    requires part_bound { r.change.exact.part < D }
    requires room { HasRoom w.old (over_tolerance s r end.now) }
    ensures { Writes w.old (flatten (over_tolerance s r end.now)) w.new }
{
    put_moved(w, r);
    put_against(w, r.tolerance);
    put_counted(w, s);
    w.put_word(end);
}

// ---- what is said with each number

fn put_named(w: &mut Writer<'_>, value: u8, rest: &[u8])
    requires { HasRoom w.old (named value rest.now) }
    ensures { Writes w.old (flatten (named value rest.now)) w.new }
{
    put_name(w, value);
    w.put_word(rest);
}

fn put_said(w: &mut Writer<'_>, number: u8, s: Session, r: Reason)
    requires part_bound { r.change.exact.part < D }
    requires room { HasRoom w.old (said number s r) }
    ensures { Writes w.old (flatten (said number s r)) w.new }
{
    match number {
        4 => put_named(w, r.value, b" of the sample is a NaN: refused 4"),
        13 => put_named(w, r.value, b" of the sample is infinite: refused 13"),
        5 => put_named(
            w,
            r.value,
            b" of the sample rounds to more than 268435456 ticks: refused 5",
        ),
        6 => put_named(w, r.value, b" would be out of range: refused 6"),
        7 => w.put_word(b"no correction is awaited: refused 7"),
        8 => put_over(w, s, r, b", the last: refused 8"),
        _ => put_over(w, s, r, b""),
    }
}

// ---- the sentence of a line of a script

#[tactic(auto, unfolding(crate::specs::Sentences::is_accepted))]
fn is_accepted(e: Explanation) -> bool
    ensures { result ≡ is_accepted e }
{
    e.number == 0 && e.kind == 1
}

fn put_told(w: &mut Writer<'_>, line: u64, s: Session, e: Explanation)
    requires part_bound { e.reason.change.exact.part < D }
    requires room { HasRoom w.old (told line s e) }
    ensures { Writes w.old (flatten (told line s e)) w.new }
{
    let reason = e.reason;
    w.put_word(b"line ");
    w.put_decimal(line);
    w.put_word(b": ");
    put_said(w, e.number, s, reason);
    w.put(b'\n');
}

// Nothing is said of a correction that is accepted.
pub fn put_sentence(w: &mut Writer<'_>, line: u64, s: Session, e: Explanation)
    requires part_bound { e.reason.change.exact.part < D }
    requires room { HasRoom w.old (sentence line s e) }
    ensures { Writes w.old (flatten (sentence line s e)) w.new }
{
    if is_accepted(e) {
        return;
    }
    put_told(w, line, s, e);
}
