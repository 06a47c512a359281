// The answer to one line of a script.
ghost use Rattle.std.specs.Prelude.{◌+◌, ◌≤◌, length, IfSome};

use crate::calls;
use crate::runs::answer_run;
use epoch_steps::AfterRound;
use script::{Name, Words};
use session::Session;
use steps::Answer;
use text::Writer;

// The record after a line, and the place past its answer. The record is written after it, or not.
#[derive(Clone, Copy)]
pub(crate) struct Answered {
    pub(crate) session: Session,
    pub(crate) end: usize,
    pub(crate) recorded: bool,
}

// An answer, beside the record after it.
fn put_answer(out: &mut [u8], at: usize, name: &[u8], answer: Answer, session: Session) -> Answered
    requires name_len_bound { length name.now ≤ 8 }
    requires at_in_bounds { at + 3411 ≤ length out.old }
    ensures { result.end ≤ at + 3411 }
{
    let mut w = Writer::at(out, at);
    script::put_answer(&mut w, name, answer);
    let end = w.place();
    Answered {
        session,
        end,
        recorded: true,
    }
}

// The answer of a round, beside the record after it.
fn put_round(out: &mut [u8], at: usize, name: &[u8], after: AfterRound) -> Answered
    requires name_len_bound { length name.now ≤ 8 }
    requires at_in_bounds { at + 3411 ≤ length out.old }
    ensures { result.end ≤ at + 3411 }
{
    let answer = answers::round_answer(after.answer);
    let mut w = Writer::at(out, at);
    script::put_round(&mut w, name, answer);
    let end = w.place();
    Answered {
        session: after.session,
        end,
        recorded: true,
    }
}

fn answer_open(out: &mut [u8], at: usize, s: Session, line: &[u8]) -> Option<Answered>
    requires { at + 3411 ≤ length out.old }
    ensures { IfSome result (λ answered. answered.end ≤ at + 3411) }
{
    let mut words = Words::new(line, 4);
    match script::read_open(&mut words) {
        Ok(call) if words.is_over() => {
            let after = calls::open(s, &call);
            let answer = answers::opening_answer(after.answer);
            Some(put_answer(out, at, b"open", answer, after.session))
        }
        _ => None,
    }
}

fn answer_start(out: &mut [u8], at: usize, s: Session, line: &[u8]) -> Option<Answered>
    requires { at + 3411 ≤ length out.old }
    ensures { IfSome result (λ answered. answered.end ≤ at + 3411) }
{
    let mut words = Words::new(line, 5);
    match script::read_open(&mut words) {
        Ok(call) if words.is_over() => {
            Some(put_round(out, at, b"start", calls::start(s, &call)))
        }
        _ => None,
    }
}

fn answer_refine(out: &mut [u8], at: usize, s: Session, line: &[u8]) -> Option<Answered>
    requires { at + 3411 ≤ length out.old }
    ensures { IfSome result (λ answered. answered.end ≤ at + 3411) }
{
    let mut words = Words::new(line, 6);
    match script::read_floats(&mut words) {
        Ok(floats) if words.is_over() => {
            Some(put_round(out, at, b"refine", calls::refine(s, &floats)))
        }
        _ => None,
    }
}

fn answer_predict(out: &mut [u8], at: usize, s: Session) -> Answered
    requires { at + 3411 ≤ length out.old }
    ensures { result.end ≤ at + 3411 }
{
    let after = stepper::owned::predict(s);
    let answer = answers::prediction_answer(after.answer);
    put_answer(out, at, b"predict", answer, after.session)
}

fn answer_correct(out: &mut [u8], at: usize, s: Session, line: &[u8]) -> Option<Answered>
    requires { at + 3411 ≤ length out.old }
    ensures { IfSome result (λ answered. answered.end ≤ at + 3411) }
{
    let mut words = Words::new(line, 7);
    match script::read_sample(&mut words) {
        Ok(sample) if words.is_over() => {
            let after = stepper::owned::correct(s, sample);
            let answer = answers::correction_answer(after.answer);
            Some(put_answer(out, at, b"correct", answer, after.session))
        }
        _ => None,
    }
}

fn answer_withdraw(out: &mut [u8], at: usize, s: Session) -> Answered
    requires { at + 3411 ≤ length out.old }
    ensures { result.end ≤ at + 3411 }
{
    let after = stepper::owned::withdraw(s);
    let answer = answers::withdrawal_answer(after.answer);
    put_answer(out, at, b"withdraw", answer, after.session)
}

// A question why changes nothing, and no record follows its answer.
fn answer_why(out: &mut [u8], at: usize, s: Session, line: &[u8]) -> Option<Answered>
    requires { at + 3411 ≤ length out.old }
    ensures { IfSome result (λ answered. answered.end ≤ at + 3411) }
{
    let mut words = Words::new(line, 3);
    match script::read_sample(&mut words) {
        Ok(sample) if words.is_over() => {
            let mut w = Writer::at(out, at);
            script::put_why(&mut w, reasons::explain(s, sample));
            let end = w.place();
            Some(Answered {
                session: s,
                end,
                recorded: false,
            })
        }
        _ => None,
    }
}

// Saving changes nothing, and no record follows its answer.
fn answer_save(out: &mut [u8], at: usize, s: Session) -> Answered
    requires { at + 3411 ≤ length out.old }
    ensures { result.end ≤ at + 3411 }
{
    let mut w = Writer::at(out, at);
    script::put_save(&mut w, s);
    let end = w.place();
    Answered {
        session: s,
        end,
        recorded: false,
    }
}

fn answer_load(out: &mut [u8], at: usize, s: Session, line: &[u8]) -> Option<Answered>
    requires { at + 3411 ≤ length out.old }
    ensures { IfSome result (λ answered. answered.end ≤ at + 3411) }
{
    let mut words = Words::new(line, 4);
    match script::read_load(&mut words) {
        Ok(read) if words.is_over() => {
            let mut w = Writer::at(out, at);
            script::put_load(&mut w, read.number);
            let end = w.place();
            let session = calls::load(s, read);
            Some(Answered {
                session,
                end,
                recorded: true,
            })
        }
        _ => None,
    }
}

// A record that is filled in is not answered.
fn filled(at: usize, line: &[u8]) -> Option<Answered>
    ensures { IfSome result (λ answered. answered.end ≤ at + 3411) }
{
    let mut words = Words::new(line, 4);
    match script::read_session(&mut words) {
        Ok(session) if words.is_over() => Some(Answered {
            session,
            end: at,
            recorded: true,
        }),
        _ => None,
    }
}

// A line that is no call has no answer.
pub(crate) fn answer_line(out: &mut [u8], at: usize, s: Session, line: &[u8]) -> Option<Answered>
    requires { at + 3411 ≤ length out.old }
    ensures { IfSome result (λ answered. answered.end ≤ at + 3411) }
{
    match script::name_of(line)? {
        Name::Open => answer_open(out, at, s, line),
        Name::Predict => Some(answer_predict(out, at, s)),
        Name::Correct => answer_correct(out, at, s, line),
        Name::Withdraw => Some(answer_withdraw(out, at, s)),
        Name::Fill => filled(at, line),
        Name::Start => answer_start(out, at, s, line),
        Name::Refine => answer_refine(out, at, s, line),
        Name::Why => answer_why(out, at, s, line),
        Name::Save => Some(answer_save(out, at, s)),
        Name::Load => answer_load(out, at, s, line),
        Name::Run => answer_run(out, at, s, line),
    }
}
