// Withdraw: the session is settled again, as before the prediction.
ghost use Rattle.std.specs.Prelude.{◌≡◌, true};
ghost use Rattle.session.specs.Holding.{awaiting};
ghost use Rattle.steps.specs.Steps.{withdraw_of};

use crate::{After, AfterWithdraw};
use rules::Reason;
use session::{Session, is_awaiting, settle};

// A record that is known to await a correction.
pub fn withdraw_awaiting(s: Session) -> AfterWithdraw
    requires { awaiting s ≡ true }
    ensures { result ≡ withdraw_of s }
{
    After {
        session: settle(s),
        answer: Ok(()),
    }
}

pub fn withdraw_step(s: Session) -> AfterWithdraw
    ensures { result ≡ withdraw_of s }
{
    if !is_awaiting(s) {
        return After {
            session: s,
            answer: Err(Reason::WrongState.into()),
        };
    }
    withdraw_awaiting(s)
}
