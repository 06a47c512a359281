// The answer to the line of a run.
ghost use Rattle.std.specs.Prelude.{◌≡◌, ◌+◌, ◌≤◌, length, IfSome};
ghost use Rattle.player.specs.Calls.{ran_by};

use crate::answering::Answered;
use running::AfterRun;
use script::{RunCall, Words};
use session::Session;
use text::Writer;

fn run(s: Session, call: &RunCall) -> AfterRun
    ensures { result ≡ ran_by s call.now }
{
    stepper::owned::run(s, call.floats.as_slice(), call.wanted)
}

// The answer, beside the record after it.
fn put_run(out: &mut [u8], at: usize, after: AfterRun) -> Answered
    requires { at + 3411 ≤ length out.old }
    ensures { result.end ≤ at + 3411 }
{
    let answer = after.answer;
    let mut w = Writer::at(out, at);
    script::put_run(&mut w, answer.number, answer.points, answer.used as u64);
    let end = w.place();
    Answered {
        session: after.session,
        end,
        recorded: true,
    }
}

pub(crate) fn answer_run(out: &mut [u8], at: usize, s: Session, line: &[u8]) -> Option<Answered>
    requires { at + 3411 ≤ length out.old }
    ensures { IfSome result (λ answered. answered.end ≤ at + 3411) }
{
    let mut words = Words::new(line, 3);
    match script::read_run(&mut words) {
        Ok(call) if words.is_over() => Some(put_run(out, at, run(s, &call))),
        _ => None,
    }
}
