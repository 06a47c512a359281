// The calls of a host: each is lent the bytes of a session's image and the bytes of its answer, and returns the number. host_c exports them to C.
#![tactic(auto)]

ghost use Rattle.std.specs.Prelude.{◌≡◌};
ghost use Rattle.host.specs.Calls.{Leaves, host_request, host_open, host_predict, host_correct, host_withdraw};

use answers::{correction_answer, opening_answer, prediction_answer, withdrawal_answer};
use axis::Tolerances;
use session::WholePoint;
use ticks::Sample;

mod answering;
mod held;
mod samples;

use answering::leave;
use held::{correct_held, held_in, predict_held, withdraw_held};
use samples::open_from;

pub fn durungkilat_open(
    image: &mut [u8],
    answer: &mut [u8],
    points: usize,
    position_tolerance: u64,
    velocity_tolerance: u64,
    limit: u64,
    x: i64,
    y: i64,
    z: i64,
    vx: i64,
    vy: i64,
    vz: i64,
    samples: &[u8],
) -> u32
    ensures { Leaves (host_open image.old answer.old (host_request points position_tolerance velocity_tolerance limit
        (record { x = x; y = y; z = z; vx = vx; vy = vy; vz = vz }) samples.now)) result image.new answer.new }
{
    if image.len() != 656 || answer.len() != 200 {
        return 14;
    }
    let tolerances = Tolerances {
        position: position_tolerance,
        velocity: velocity_tolerance,
    };
    let point = WholePoint {
        x,
        y,
        z,
        vx,
        vy,
        vz,
    };
    let after = open_from(points, tolerances, limit, point, samples);
    leave(image, answer, after.session, opening_answer(after.answer))
}

pub fn durungkilat_predict(image: &mut [u8], answer: &mut [u8]) -> u32
    ensures { Leaves (host_predict image.old answer.old) result image.new answer.new }
{
    let Some(held) = held_in(image, answer) else {
        return 14;
    };
    let after = predict_held(held);
    leave(
        image,
        answer,
        after.session,
        prediction_answer(after.answer),
    )
}

pub fn durungkilat_correct(image: &mut [u8], answer: &mut [u8], x: f64, y: f64, z: f64) -> u32
    ensures { Leaves (host_correct image.old answer.old (record { x = x; y = y; z = z })) result image.new answer.new }
{
    let Some(held) = held_in(image, answer) else {
        return 14;
    };
    let after = correct_held(held, Sample { x, y, z });
    leave(
        image,
        answer,
        after.session,
        correction_answer(after.answer),
    )
}

pub fn durungkilat_withdraw(image: &mut [u8], answer: &mut [u8]) -> u32
    ensures { Leaves (host_withdraw image.old answer.old) result image.new answer.new }
{
    let Some(held) = held_in(image, answer) else {
        return 14;
    };
    let after = withdraw_held(held);
    leave(
        image,
        answer,
        after.session,
        withdrawal_answer(after.answer),
    )
}
