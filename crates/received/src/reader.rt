// A message read from a text into lent rooms, or refused.
ghost use Rattle.std.specs.Prelude.{◌≡◌, true, ◌++◌, map, ◌≤◌, ◌+◌, ◌*◌, length, drop};
ghost use Rattle.std.proofs.Math.Seq.{paste};
ghost use Rattle.received.specs.Lines.{lines_in};
ghost use Rattle.received.specs.Versions.{edition_in};
ghost use Rattle.received.specs.Data.{point_in, AllGood};
ghost use Rattle.received.specs.Finding.{walk_over, is_through, groups_of};
ghost use Rattle.received.specs.Answer.{has_room, seconds_of, values_of, refused_by, received, answer_to, epochs_after, values_after};

use crate::data::read_datum;
use crate::heads::place_of;
use crate::judging::judge;
use crate::lines::past_line;
use crate::versions::{edition_of, is_other};
use crate::{Place, Received};
use message::Edition;

fn put_six(room: &mut [i64], at: usize, values: [i64; 6])
    requires { at + 6 ≤ length room.old }
    ensures { room.new ≡ paste room.old at values 6 }
{
    room[at..at + 6].copy_from_slice(&values);
}

// The points of all lines from a place on, each of which can be read.
fn keep(text: &[u8], from: usize, epochs: &mut [u64], values: &mut [i64])
    requires from_in_bounds { from ≤ length text.now }
    requires all_good { AllGood (lines_in (drop from text.now)) }
    requires text_in_bounds { (length (lines_in (drop from text.now)) ≤ length epochs.old) × (6 * length (lines_in (drop from text.now)) ≤ length values.old) }
    ensures epochs_after { epochs.new ≡ seconds_of (map point_in (lines_in (drop from text.now))) ++ drop (length (lines_in (drop from text.now))) epochs.old }
    ensures values_after { values.new ≡ values_of (map point_in (lines_in (drop from text.now))) ++ drop (6 * length (lines_in (drop from text.now))) values.old }
{
    let mut at = from;
    // By number, for it ends with the text, and the rooms may go on.
    let mut i = 0;
    while at < text.len() {
        let end = past_line(text, at);
        let d = read_datum(&text[at..end]).unwrap();
        epochs[i] = d.seconds;
        put_six(values, 6 * i, d.values);
        i += 1;
        at = end;
    }
}

#[tactic(auto, unfolding(crate::specs::Answer::has_room))]
fn has_room(count: usize, epochs: usize, values: usize) -> bool
    ensures { result ≡ has_room count epochs values }
{
    count <= epochs && count <= values / 6
}

fn refused(number: u8, line: usize) -> Received
    ensures { result ≡ refused_by number line }
{
    let nowhere = Place {
        start: 0,
        length: 0,
    };
    Received {
        number,
        line,
        count: 0,
        created: nowhere,
        originator: nowhere,
        object: nowhere,
        id: nowhere,
        center: nowhere,
        frame: nowhere,
    }
}

// Where the names and the time of creation stand.
fn found(text: &[u8], edition: Edition, count: usize) -> Received
    requires { is_through (walk_over edition text.now) ≡ true }
    ensures { result ≡ received (groups_of (walk_over edition text.now)) count }
{
    Received {
        number: 0,
        line: 0,
        count,
        created: place_of(text, edition, 3),
        originator: place_of(text, edition, 4),
        object: place_of(text, edition, 8),
        id: place_of(text, edition, 9),
        center: place_of(text, edition, 10),
        frame: place_of(text, edition, 11),
    }
}

fn read_as(edition: Edition, text: &[u8], epochs: &mut [u64], values: &mut [i64]) -> Received
    ensures value { result ≡ answer_to edition text.now epochs.old values.old }
    ensures epochs_after { epochs.new ≡ epochs_after edition text.now epochs.old values.old }
    ensures values_after { values.new ≡ values_after edition text.now epochs.old values.old }
{
    if is_other(text, edition) {
        return refused(17, 0);
    }
    let judged = match judge(text, edition) {
        Ok(judged) => judged,
        Err(line) => return refused(15, line),
    };
    if !has_room(judged.count, epochs.len(), values.len()) {
        return refused(12, 0);
    }
    keep(text, judged.at, epochs, values);
    found(text, edition, judged.count)
}

// A message of version 2.0.
pub fn read_message(text: &[u8], epochs: &mut [u64], values: &mut [i64]) -> Received
    ensures value { result ≡ answer_to Edition.Two text.now epochs.old values.old }
    ensures epochs_after { epochs.new ≡ epochs_after Edition.Two text.now epochs.old values.old }
    ensures values_after { values.new ≡ values_after Edition.Two text.now epochs.old values.old }
{
    read_as(Edition::Two, text, epochs, values)
}

// By the edition that the version line chooses.
pub fn read_either(text: &[u8], epochs: &mut [u64], values: &mut [i64]) -> Received
    ensures value { result ≡ answer_to (edition_in text.now) text.now epochs.old values.old }
    ensures epochs_after { epochs.new ≡ epochs_after (edition_in text.now) text.now epochs.old values.old }
    ensures values_after { values.new ≡ values_after (edition_in text.now) text.now epochs.old values.old }
{
    read_as(edition_of(text), text, epochs, values)
}
