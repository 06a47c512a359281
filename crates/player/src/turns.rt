// Standard input read piece by piece, and what a voice writes of each piece.
ghost use Rattle.std.specs.Prelude.{◌+◌, ◌≤◌, length, IfSome};

use crate::Voice;
use crate::lines::{answer_piece, write_out};
use session::Session;
use std::io::Read;

// One piece of input after the bytes that are held from the piece before: how many bytes came. None come where a read fails.
fn read_piece(rt: &HostRuntime, input: &mut [u8], held: usize) -> usize
    requires { held ≤ length input.old }
    ensures { held + result ≤ length input.old }
{
    let mut stdin = rt.stdin();
    stdin.read(&mut input[held..]).unwrap_or(0)
}

// Moves the bytes from `from` to `end` to the start.
fn keep(input: &mut [u8], from: usize, end: usize) -> usize
    requires from_le_end { from ≤ end }
    requires end_in_bounds { end ≤ length input.old }
    ensures { result ≤ length input.old }
{
    input.copy_within(from..end, 0);
    end - from
}

// Where a script is between two pieces: the record, the lines so far, and the bytes held.
#[derive(Clone, Copy)]
struct Place {
    session: Session,
    count: u64,
    held: usize,
}

// Reads a piece, answers its lines, and writes the answers. No place is left where the script is over, or an output is not taken.
fn turn(
    rt: &HostRuntime,
    voice: Voice,
    input: &mut [u8],
    out: &mut [u8],
    place: Place,
) -> Option<Place>
    requires held_in_bounds { place.held ≤ length input.old }
    requires in_bounds { 8192 ≤ length out.old }
    ensures { IfSome result (λ next. next.held ≤ length input.old) }
{
    let got = read_piece(rt, input, place.held);
    let end = place.held + got;
    let p = answer_piece(rt, voice, input, got, end, out, place.session, place.count);
    if !write_out(rt, out, p.written) || p.over {
        return None;
    }
    let held = keep(input, p.used, end);
    Some(Place {
        session: p.session,
        count: p.count,
        held,
    })
}

fn run(rt: &HostRuntime, voice: Voice, input: &mut [u8], out: &mut [u8])
    requires { 8192 ≤ length out.old }
{
    let mut place = Place {
        session: session::closed(),
        count: 0,
        held: 0,
    };
    for _ in 0..u64::MAX {
        let Some(next) = turn(rt, voice, input, out, place) else {
            return;
        };
        place = next;
    }
}

// Plays the script of standard input, to its end or to a line that is no call.
pub fn play(rt: &HostRuntime, voice: Voice) {
    let mut input = [0u8; 65_536];
    let mut output = [0u8; 65_536];
    run(rt, voice, &mut input, &mut output);
}
