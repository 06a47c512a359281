// What of a record is saved.
ghost use Rattle.std.specs.Prelude.{◌≡◌};
ghost use Rattle.image.specs.Standing.{stands, standing};

use epoch_session::is_starting;
use session::{Session, closed, is_awaiting, is_settled};

fn stands(s: Session) -> bool
    ensures { result ≡ stands s }
{
    is_settled(s) || is_awaiting(s) || is_starting(s)
}

pub(crate) fn standing(s: Session) -> Session
    ensures { result ≡ standing s }
{
    if stands(s) { s } else { closed() }
}
