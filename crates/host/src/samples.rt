// The floats of an opening, from their bytes, and the opening.
ghost use Rattle.std.specs.Prelude.{◌≡◌, ◌*◌, ◌≤◌, length, take};
ghost use Rattle.session.specs.Requests.{request};
ghost use Rattle.steps.specs.Steps.{open_of};
ghost use Rattle.host.specs.Samples.{floats_in, float_count, floats_of};

use axis::Tolerances;
use image::{float_of, word_at};
use session::{WholePoint, points_hold};
use steps::{AfterOpen, open_step};

// The first n floats.
fn floats_in(n: usize, bytes: &[u8]) -> [f64; 27]
    requires { (n ≤ 27) × (8 * n ≤ length bytes.now) }
    ensures { take n result ≡ floats_in n bytes.now }
{
    let mut out = [0.0; 27];
    for i in 0..n {
        out[i] = float_of(word_at(bytes, 8 * i));
    }
    out
}

// How many floats so many bytes have for an opening, and none where they are not as many as it takes.
fn count(points: usize, bytes: usize) -> usize
    ensures { result ≡ float_count points bytes }
{
    if points_hold(points) && bytes == 24 * points {
        3 * points
    } else {
        0
    }
}

pub(crate) fn open_from(
    points: usize,
    tolerances: Tolerances,
    limit: u64,
    point: WholePoint,
    bytes: &[u8],
) -> AfterOpen
    ensures { result ≡ open_of (request points tolerances limit point (floats_of points bytes.now)) }
{
    let n = count(points, bytes.len());
    let floats = floats_in(n, bytes);
    open_step(points, tolerances, limit, point, &floats[..n])
}
