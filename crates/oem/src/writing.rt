// `oem write`: a request is read, and the message or the one line that answers it is written.
ghost use Rattle.std.specs.Prelude.{◌≤◌, length};

use crate::answers::answer;
use crate::output::put;
use crate::reading::serve;

// Room for a request of 1,100,000 bytes and a byte that is too many, for the numbers of 4,096 points, and for their message.
pub(crate) fn run(rt: &HostRuntime) {
    let mut input = [0u8; 1_100_001];
    let mut numbers = [0i64; 49_152];
    let mut out = [0u8; 560_000];
    write(rt, &mut input, &mut numbers, &mut out);
}

// Writes once the whole answer is known.
fn write(rt: &HostRuntime, input: &mut [u8], numbers: &mut [i64], out: &mut [u8])
    requires { 64 ≤ length out.old }
{
    serve(
        rt,
        input,
        || put(rt, b"a request has at most 1100000 bytes\n"),
        |text| {
            let length = answer(text, numbers, out);
            put(rt, &out[..length]);
        },
    );
}
