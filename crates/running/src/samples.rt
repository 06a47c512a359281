// A sample of a slice.
ghost use Rattle.std.specs.Prelude.{◌≡◌, ◌+◌, ◌*◌, ◌<◌, length};
ghost use Rattle.running.specs.Samples.{sample_at};

use ticks::Sample;

// The one behind i others.
pub(crate) fn sample_at(samples: &[f64], i: usize) -> Sample
    requires { 3 * i + 2 < length samples.now }
    ensures { result ≡ sample_at samples.now i }
{
    let at = 3 * i;
    Sample {
        x: samples[at],
        y: samples[at + 1],
        z: samples[at + 2],
    }
}
