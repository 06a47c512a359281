// The calls from C, each under its own name: they are those of host.
#![tactic(auto)]

ghost use Rattle.std.specs.Prelude.{◌≡◌};
ghost use Rattle.host.specs.Calls.{Leaves, host_request, host_open, host_predict, host_correct, host_withdraw};

#[unsafe(no_mangle)]
pub extern "C" fn durungkilat_open(
    image: &mut [u8],
    answer: &mut [u8],
    points: usize,
    position_tolerance: u64,
    velocity_tolerance: u64,
    limit: u64,
    x: i64,
    y: i64,
    z: i64,
    vx: i64,
    vy: i64,
    vz: i64,
    samples: &[u8],
) -> u32
    ensures { Leaves (host_open image.old answer.old (host_request points position_tolerance velocity_tolerance limit
        (record { x = x; y = y; z = z; vx = vx; vy = vy; vz = vz }) samples.now)) result image.new answer.new }
{
    host::durungkilat_open(
        image,
        answer,
        points,
        position_tolerance,
        velocity_tolerance,
        limit,
        x,
        y,
        z,
        vx,
        vy,
        vz,
        samples,
    )
}

#[unsafe(no_mangle)]
pub extern "C" fn durungkilat_predict(image: &mut [u8], answer: &mut [u8]) -> u32
    ensures { Leaves (host_predict image.old answer.old) result image.new answer.new }
{
    host::durungkilat_predict(image, answer)
}

#[unsafe(no_mangle)]
pub extern "C" fn durungkilat_correct(
    image: &mut [u8],
    answer: &mut [u8],
    x: f64,
    y: f64,
    z: f64,
) -> u32
    ensures { Leaves (host_correct image.old answer.old (record { x = x; y = y; z = z })) result image.new answer.new }
{
    host::durungkilat_correct(image, answer, x, y, z)
}

#[unsafe(no_mangle)]
pub extern "C" fn durungkilat_withdraw(image: &mut [u8], answer: &mut [u8]) -> u32
    ensures { Leaves (host_withdraw image.old answer.old) result image.new answer.new }
{
    host::durungkilat_withdraw(image, answer)
}
