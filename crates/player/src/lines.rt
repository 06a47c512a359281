// The lines of a piece of input, answered one after another.
ghost use Rattle.std.specs.Prelude.{◌≡◌, ◌+◌, ◌<◌, ◌≤◌, length, IfSome};

use crate::Voice;
use crate::answering::{Answered, answer_line};
use crate::explaining::explain_line;
use session::Session;
use text::Writer;

// How far a script is: the record, the lines so far, the bytes of input used, the bytes of output to be written, and whether the script is over.
// `over` stands beside them and is no Option: what is written so far goes out also where the script is over.
#[derive(Clone, Copy)]
pub(crate) struct Progress {
    pub(crate) session: Session,
    pub(crate) count: u64,
    pub(crate) used: usize,
    pub(crate) written: usize,
    pub(crate) over: bool,
}

// The place of the first newline from `from` on, before `end`.
fn newline(input: &[u8], from: usize, end: usize) -> Option<usize>
    requires from_le_end { from ≤ end }
    requires end_in_bounds { end ≤ length input.now }
    ensures { IfSome result (λ i. (from ≤ i) × (i < end)) }
{
    let i = input[from..end].iter().position(|byte| *byte == b'\n')?;
    Some(from + i)
}

// Writes the first bytes of the output: whether they were taken.
pub(crate) fn write_out(rt: &HostRuntime, out: &[u8], written: usize) -> bool
    requires { written ≤ length out.now }
{
    rt.write_all(&out[..written]).is_ok()
}

// A place in the output with room for an answer: what it holds is written where it leaves none. There is no place where that is not taken.
fn make_room(rt: &HostRuntime, out: &[u8], written: usize) -> Option<usize>
    requires written_in_bounds { written ≤ length out.now }
    requires in_bounds { 8192 ≤ length out.now }
    ensures { IfSome result (λ at. at + 8192 ≤ length out.now) }
{
    if written + 8192 <= out.len() {
        return Some(written);
    }
    write_out(rt, out, written).then_some(0)
}

// A script that ends here, at a line that is no call.
fn stop(out: &mut [u8], at: usize, s: Session, count: u64, used: usize) -> Progress
    requires { at + 40 ≤ length out.old }
    ensures written_in_bounds { result.written ≤ length out.old }
    ensures used_value { result.used ≡ used }
{
    let mut w = Writer::at(out, at);
    script::put_no_call(&mut w, count);
    let written = w.place();
    Progress {
        session: s,
        count,
        used,
        written,
        over: true,
    }
}

// What a voice writes of a line, which has a number, before the record.
fn tell_line(
    voice: Voice,
    out: &mut [u8],
    at: usize,
    s: Session,
    line: &[u8],
    number: u64,
) -> Option<Answered>
    requires { at + 3411 ≤ length out.old }
    ensures { IfSome result (λ answered. answered.end ≤ at + 3411) }
{
    match voice {
        Voice::Answers => answer_line(out, at, s, line),
        Voice::Sentences => explain_line(out, at, s, line, number),
    }
}

// The record after a line, where it is written.
fn tell_record(out: &mut [u8], answered: Answered) -> usize
    requires { answered.end + 1522 ≤ length out.old }
    ensures { result ≤ answered.end + 1522 }
{
    if answered.recorded {
        let mut w = Writer::at(out, answered.end);
        script::put_record(&mut w, answered.session);
        w.place()
    } else {
        answered.end
    }
}

// One line, which ends before `next`.
fn take_line(
    rt: &HostRuntime,
    voice: Voice,
    out: &mut [u8],
    p: Progress,
    line: &[u8],
    next: usize,
) -> Progress
    requires written_in_bounds { p.written ≤ length out.old }
    requires in_bounds { 8192 ≤ length out.old }
    ensures written_in_bounds_2 { result.written ≤ length out.old }
    ensures used_value { result.used ≡ next }
{
    let s = p.session;
    let count = p.count.wrapping_add(1);
    let Some(at) = make_room(rt, out, p.written) else {
        return Progress {
            session: s,
            count,
            used: next,
            written: 0,
            over: true,
        };
    };
    let Some(answered) = tell_line(voice, out, at, s, line, count) else {
        return stop(out, at, s, count, next);
    };
    let written = tell_record(out, answered);
    Progress {
        session: answered.session,
        count,
        used: next,
        written,
        over: false,
    }
}

// Every whole line of the first `end` bytes.
fn answer_lines(
    rt: &HostRuntime,
    voice: Voice,
    input: &[u8],
    end: usize,
    out: &mut [u8],
    s: Session,
    count: u64,
) -> Progress
    requires end_in_bounds { end ≤ length input.now }
    requires in_bounds { 8192 ≤ length out.old }
    ensures written_in_bounds { result.written ≤ length out.old }
    ensures used_le_end { result.used ≤ end }
{
    let mut p = Progress {
        session: s,
        count,
        used: 0,
        written: 0,
        over: false,
    };
    while let Some(stop) = newline(input, p.used, end) {
        p = take_line(rt, voice, out, p, &input[p.used..stop], stop + 1);
        if p.over {
            break;
        }
    }
    p
}

// The bytes after the last newline are no call where the input is over or they are too many.
fn finish(rt: &HostRuntime, out: &mut [u8], p: Progress, got: usize, end: usize) -> Progress
    requires used_le_end { p.used ≤ end }
    requires written_in_bounds { p.written ≤ length out.old }
    requires in_bounds { 8192 ≤ length out.old }
    ensures written_in_bounds_2 { result.written ≤ length out.old }
    ensures used_le_end_2 { result.used ≤ end }
{
    let rest = end - p.used;
    if p.over || rest == 0 {
        ended(p, got == 0)
    } else if got == 0 || 4096 < rest {
        no_line(rt, out, p)
    } else {
        p
    }
}

// Whether the input is over is kept.
fn ended(p: Progress, over: bool) -> Progress
    ensures written_value { result.written ≡ p.written }
    ensures used_value { result.used ≡ p.used }
{
    Progress {
        over: p.over || over,
        ..p
    }
}

fn no_line(rt: &HostRuntime, out: &mut [u8], p: Progress) -> Progress
    requires written_in_bounds { p.written ≤ length out.old }
    requires in_bounds { 8192 ≤ length out.old }
    ensures written_in_bounds_2 { result.written ≤ length out.old }
    ensures used_value { result.used ≡ p.used }
{
    let at = make_room(rt, out, p.written).unwrap_or(0);
    stop(out, at, p.session, p.count.wrapping_add(1), p.used)
}

// The answers to a piece of input: `got` new bytes, `end` with those that were held.
pub(crate) fn answer_piece(
    rt: &HostRuntime,
    voice: Voice,
    input: &[u8],
    got: usize,
    end: usize,
    out: &mut [u8],
    s: Session,
    count: u64,
) -> Progress
    requires end_in_bounds { end ≤ length input.now }
    requires in_bounds { 8192 ≤ length out.old }
    ensures written_in_bounds { result.written ≤ length out.old }
    ensures used_le_end { result.used ≤ end }
{
    let p = answer_lines(rt, voice, input, end, out, s, count);
    finish(rt, out, p, got, end)
}
