// The calls of lines with floats, an opening, a first round and a later one, and of a line with bytes, a loading.
ghost use Rattle.std.specs.Prelude.{◌≡◌};
ghost use Rattle.player.specs.Calls.{opened_by, started_by, refined_by, loaded_by};

use epoch_steps::AfterRound;
use image::Loaded;
use script::{OpenCall, Series};
use session::Session;
use steps::AfterOpen;

pub(crate) fn open(s: Session, call: &OpenCall) -> AfterOpen
    ensures { result ≡ opened_by call.now }
{
    let settings = call.settings;
    stepper::owned::open(
        s,
        settings.points,
        settings.tolerances,
        settings.limit,
        call.point,
        call.floats.as_slice(),
    )
}

pub(crate) fn start(s: Session, call: &OpenCall) -> AfterRound
    ensures { result ≡ started_by call.now }
{
    let settings = call.settings;
    stepper::owned::start(
        s,
        settings.points,
        settings.tolerances,
        settings.limit,
        call.point,
        call.floats.as_slice(),
    )
}

pub(crate) fn refine(s: Session, floats: &Series<f64, 64>) -> AfterRound
    ensures { result ≡ refined_by s floats.now }
{
    stepper::owned::refine(s, floats.as_slice())
}

#[tactic(auto, unfolding(crate::specs::Calls::loaded_by))]
pub(crate) fn load(s: Session, read: Loaded) -> Session
    ensures { result ≡ loaded_by s read }
{
    if read.number == 0 { read.session } else { s }
}
