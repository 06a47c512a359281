// The lines before the data, slot by slot.
ghost use Rattle.std.specs.Prelude.{◌≡◌, true, [], ◌∷◌, ◌≤◌, ◌<◌, ◌+◌, length, take, drop, IfOk};
ghost use Rattle.received.specs.Lines.{lines_in};
ghost use Rattle.received.specs.Slots.{one, perhaps, any, form_of, walk};
ghost use Rattle.received.specs.Profile.{has_more, slots};
ghost use Rattle.received.specs.Reading.{slot_at};
ghost use Rattle.received.specs.Answer.{place_at};
ghost use Rattle.received.specs.Finding.{begin_at, spot_from, Inside, walk_over, is_through, groups_of, is_one};

use crate::Place;
use crate::forms::{Kind, front_of, kind_of, passes};
use crate::lines::past_line;
use message::Edition;

// A place in a text, and the number of the line there.
#[derive(Clone, Copy)]
pub struct Spot {
    pub at: usize,
    pub line: usize,
}

// The spot behind one line of slot k, or the number of the line that is none.
// Always inlined, so that a walk over comments keeps its spot in registers.
#[inline(always)]
fn pass_one(text: &[u8], edition: Edition, k: usize, from: Spot) -> Result<Spot, usize>
    requires { Inside text.now from }
    ensures ends { result ≡ spot_from from.at from.line (walk (one (form_of (slot_at edition k)) ∷ []) (lines_in (drop from.at text.now))) }
    ensures inside { IfOk result (λ to. Inside text.now to × (from.at < to.at)) }
{
    if text.len() <= from.at {
        return Err(from.line);
    }
    let end = past_line(text, from.at);
    if !passes(edition, k, &text[from.at..end]) {
        return Err(from.line);
    }
    Ok(Spot {
        at: end,
        line: from.line + 1,
    })
}

fn pass_any(text: &[u8], edition: Edition, k: usize, from: Spot) -> Spot
    requires { Inside text.now from }
    ensures ends { Ok result ≡ spot_from from.at from.line (walk (any (form_of (slot_at edition k)) ∷ []) (lines_in (drop from.at text.now))) }
    ensures inside { Inside text.now result }
{
    let mut spot = from;
    while let Ok(next) = pass_one(text, edition, k, spot) {
        spot = next;
    }
    spot
}

// An edition with further keywords.
fn has_more(edition: Edition) -> bool
    ensures { result ≡ has_more edition }
{
    matches!(edition, Edition::Three)
}

fn pass_perhaps(text: &[u8], edition: Edition, k: usize, from: Spot) -> Spot
    requires { Inside text.now from }
    ensures ends { Ok result ≡ spot_from from.at from.line (walk (perhaps (has_more edition) (form_of (slot_at edition k)) ∷ []) (lines_in (drop from.at text.now))) }
    ensures inside { Inside text.now result }
{
    if has_more(edition) {
        pass_one(text, edition, k, from).unwrap_or(from)
    } else {
        from
    }
}

fn pass_slot(text: &[u8], edition: Edition, k: usize, from: Spot) -> Result<Spot, usize>
    requires k_bound { k < 17 }
    requires inside { Inside text.now from }
    ensures ends { result ≡ spot_from from.at from.line (walk (slot_at edition k ∷ []) (lines_in (drop from.at text.now))) }
    ensures inside { IfOk result (Inside text.now) }
{
    match kind_of(k) {
        Kind::One => pass_one(text, edition, k, from),
        Kind::Perhaps => Ok(pass_perhaps(text, edition, k, from)),
        Kind::Any => Ok(pass_any(text, edition, k, from)),
    }
}

// The spot behind the lines of the first k slots, or the number of the line at which they stop.
pub(crate) fn reach(text: &[u8], edition: Edition, k: usize) -> Result<Spot, usize>
    requires { k ≤ 17 }
    ensures ends { result ≡ spot_from 0 1 (walk (take k (slots edition)) (lines_in text.now)) }
    ensures inside { IfOk result (Inside text.now) }
{
    let mut spot = Spot { at: 0, line: 1 };
    for j in 0..k {
        spot = pass_slot(text, edition, j, spot)?;
    }
    Ok(spot)
}

// Where slot k begins in a text that has a line for each slot.
pub(crate) fn begin_of(text: &[u8], edition: Edition, k: usize) -> Spot
    requires k_bound { k ≤ 17 }
    requires through { is_through (walk_over edition text.now) ≡ true }
    ensures begins { result ≡ begin_at (groups_of (walk_over edition text.now)) k }
    ensures inside { Inside text.now result }
{
    reach(text, edition, k).unwrap()
}

// Where the value of slot k stands.
pub(crate) fn place_of(text: &[u8], edition: Edition, k: usize) -> Place
    requires k_bound { (k < 17) × (is_one (slot_at edition k) ≡ true) }
    requires through { is_through (walk_over edition text.now) ≡ true }
    ensures { (result ≡ place_at (groups_of (walk_over edition text.now)) k) × (result.start + result.length ≤ length text.now) }
{
    let here = begin_of(text, edition, k);
    let next = begin_of(text, edition, k + 1);
    let start = here.at + front_of(k).len();
    Place {
        start,
        length: next.at - 1 - start,
    }
}
