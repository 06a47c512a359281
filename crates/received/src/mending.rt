// A damaged message mended into lent rooms, or refused.
ghost use Rattle.std.specs.Prelude.{◌≡◌, ◌≤◌, ◌+◌, length, drop};
ghost use mathlib.Core.List.{[], ◌∷◌, flatten};
ghost use Rattle.text.specs.Places.{Wrote};
ghost use Rattle.text.specs.Writes.{Fits, Writes};
ghost use Rattle.received.specs.Lines.{lines_in};
ghost use Rattle.received.specs.Versions.{edition_in};
ghost use Rattle.received.specs.Data.{kept_of};
ghost use Rattle.received.specs.Mending.{drops_from, words};
ghost use Rattle.received.specs.MendAnswer.{unmended, mended_to, out_after, changes_after};
ghost use Rattle.received.specs.Planning.{change_unless, head_of, Planned, planned_text, planned_list};

use crate::Mended;
use crate::planning::{Plan, has_rooms, plan_of};
use crate::surveying::look;
use crate::versions::{edition_of, is_other};
use message::{Edition, put_time_entry};
use text::Writer;

// The lines before the data, with two times.
fn put_head(w: &mut Writer<'_>, text: &[u8], p: Plan)
    requires planned { Planned text.now p }
    requires p_in_bounds { Fits w.old (flatten (head_of text.now p)) }
    ensures { Writes w.old (flatten (head_of text.now p)) w.new }
{
    w.put_word(&text[..p.start]);
    put_time_entry(w, b"START_TIME", p.first);
    put_time_entry(w, b"STOP_TIME", p.last);
    w.put_word(&text[p.stop..p.from]);
}

// The data lines from a place on that are kept.
fn put_kept(w: &mut Writer<'_>, text: &[u8], from: usize)
    requires from_in_bounds { from ≤ length text.now }
    requires text_in_bounds { Fits w.old (flatten (kept_of 0 (lines_in (drop from text.now)))) }
    ensures { Writes w.old (flatten (kept_of 0 (lines_in (drop from text.now)))) w.new }
{
    let mut i = from;
    let mut earliest = 0;
    while i < text.len() {
        let l = look(text, i, earliest);
        if l.good {
            w.put_word(&text[i..l.end]);
            earliest = l.seconds + 1;
        }
        i = l.end;
    }
}

fn put_text(w: &mut Writer<'_>, text: &[u8], p: Plan)
    requires planned { Planned text.now p }
    requires p_in_bounds { Fits w.old (planned_text text.now p) }
    ensures { Writes w.old (planned_text text.now p) w.new }
{
    put_head(w, text, p);
    put_kept(w, text, p.from);
}

fn put_change(changes: &mut [u64], at: usize, line: usize, what: u64) -> usize
    requires { at + 2 ≤ length changes.old }
    ensures { Wrote changes.old at (line ∷ what ∷ []) changes.new result }
{
    changes[at] = line as u64;
    changes[at + 1] = what;
    at + 2
}

// A change of a time that is not the one it has to be.
fn put_time_change(changes: &mut [u64], at: usize, same: bool, line: usize, what: u64) -> usize
    requires { at + length (words (change_unless same line what)) ≤ length changes.old }
    ensures { Wrote changes.old at (words (change_unless same line what)) changes.new result }
{
    if same {
        return at;
    }
    put_change(changes, at, line, what)
}

// The data lines from a place on that are dropped, the first of all having a number.
fn put_drops(text: &[u8], from: usize, first: usize, changes: &mut [u64], at: usize) -> usize
    requires from_in_bounds { (from ≤ length text.now) × (first ≤ from + 1) }
    requires text_in_bounds { at + length (words (drops_from first 0 (lines_in (drop from text.now)))) ≤ length changes.old }
    ensures { Wrote changes.old at (words (drops_from first 0 (lines_in (drop from text.now)))) changes.new result }
{
    let mut i = from;
    let mut end = at;
    let mut number = first;
    let mut earliest = 0;
    while i < text.len() {
        let l = look(text, i, earliest);
        let here = number;
        number += 1;
        if l.good {
            earliest = l.seconds + 1;
        } else {
            end = put_change(changes, end, here, 1);
        }
        i = l.end;
    }
    end
}

fn put_list(text: &[u8], p: Plan, changes: &mut [u64]) -> usize
    requires planned { Planned text.now p }
    requires p_in_bounds { length (words (planned_list text.now p)) ≤ length changes.old }
    ensures { Wrote changes.old 0 (words (planned_list text.now p)) changes.new result }
{
    let a = put_time_change(changes, 0, p.starts, p.line, 2);
    let b = put_time_change(changes, a, p.stops, p.line + 1, 3);
    put_drops(text, p.from, p.number, changes, b)
}

fn refused(number: u8) -> Mended
    ensures { result ≡ unmended number }
{
    Mended {
        number,
        length: 0,
        changes: 0,
    }
}

fn mend_as(edition: Edition, text: &[u8], out: &mut [u8], changes: &mut [u64]) -> Mended
    ensures value { result ≡ mended_to edition text.now out.old changes.old }
    ensures out_after { out.new ≡ out_after edition text.now out.old changes.old }
    ensures changes_after { changes.new ≡ changes_after edition text.now out.old changes.old }
{
    if is_other(text, edition) {
        return refused(17);
    }
    let Some(p) = plan_of(text, edition) else {
        return refused(16);
    };
    if !has_rooms(text, p, out.len(), changes.len()) {
        return refused(12);
    }
    let mut w = Writer::new(out);
    put_text(&mut w, text, p);
    let length = w.place();
    let words = put_list(text, p, changes);
    Mended {
        number: 0,
        length,
        changes: words / 2,
    }
}

// By the edition that the version line chooses.
pub fn mend_message(text: &[u8], out: &mut [u8], changes: &mut [u64]) -> Mended
    ensures value { result ≡ mended_to (edition_in text.now) text.now out.old changes.old }
    ensures out_after { out.new ≡ out_after (edition_in text.now) text.now out.old changes.old }
    ensures changes_after { changes.new ≡ changes_after (edition_in text.now) text.now out.old changes.old }
{
    mend_as(edition_of(text), text, out, changes)
}
