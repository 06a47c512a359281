// What is said of one line of a script, in the voice of sentences.
ghost use Rattle.std.specs.Prelude.{◌+◌, ◌≤◌, length, IfSome};

use crate::answering::{Answered, answer_line};
use script::{Name, Words};
use session::Session;
use text::Writer;

// Why the correction of a line, counted from 1, is answered as it is.
fn explain_correct(out: &mut [u8], at: usize, s: Session, line: &[u8], number: u64) -> usize
    requires { at + 3411 ≤ length out.old }
    ensures { result ≤ at + 3411 }
{
    match script::read_sample(&mut Words::new(line, 7)) {
        Ok(sample) => {
            let mut w = Writer::at(out, at);
            sentences::put_sentence(&mut w, number, s, reasons::explain(s, sample));
            w.place()
        }
        Err(_) => at,
    }
}

// Only a correction is explained.
fn explain_call(out: &mut [u8], at: usize, s: Session, line: &[u8], number: u64) -> usize
    requires { at + 3411 ≤ length out.old }
    ensures { result ≤ at + 3411 }
{
    if matches!(script::name_of(line), Some(Name::Correct)) {
        explain_correct(out, at, s, line, number)
    } else {
        at
    }
}

// The call is made, and what is said of the session before it takes the place of its answer.
pub(crate) fn explain_line(
    out: &mut [u8],
    at: usize,
    s: Session,
    line: &[u8],
    number: u64,
) -> Option<Answered>
    requires { at + 3411 ≤ length out.old }
    ensures { IfSome result (λ answered. answered.end ≤ at + 3411) }
{
    let answered = answer_line(out, at, s, line)?;
    let end = explain_call(out, at, s, line, number);
    Some(Answered {
        session: answered.session,
        end,
        recorded: false,
    })
}
