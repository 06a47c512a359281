// A sample of three floats, axis by axis, and the worst fault of many floats.
ghost use Rattle.std.specs.Prelude.{◌≡◌};
ghost use Rattle.ticks.specs.Round.{ticks_in};
ghost use Rattle.ticks.specs.Samples.{fault_in, sample_of};
ghost use Rattle.ticks.specs.Faults.{gathered};

use crate::rounding::round_to_tick;
use crate::{Fault, FaultySample, Sample, WholeSample};

// Zero where there are none.
pub fn ticks_in(r: Result<i64, Fault>) -> i64
    ensures { result ≡ ticks_in r }
{
    r.unwrap_or(0)
}

// The worst fault of the floats.
pub fn fault_in(xs: &[f64]) -> Option<Fault>
    ensures { result ≡ fault_in xs.now }
{
    xs.iter().filter_map(|x| round_to_tick(*x).err()).max()
}

fn whole_of(x: Result<i64, Fault>, y: Result<i64, Fault>, z: Result<i64, Fault>) -> WholeSample
    ensures { result ≡ record { x = ticks_in x; y = ticks_in y; z = ticks_in z } }
{
    WholeSample {
        x: ticks_in(x),
        y: ticks_in(y),
        z: ticks_in(z),
    }
}

// The ticks of the three, beside their worst fault where they have one.
fn gather(
    x: Result<i64, Fault>,
    y: Result<i64, Fault>,
    z: Result<i64, Fault>,
) -> Result<WholeSample, FaultySample>
    ensures { result ≡ gathered x y z }
{
    let ticks = whole_of(x, y, z);
    match x.err().max(y.err().max(z.err())) {
        Some(fault) => Err(FaultySample { fault, ticks }),
        None => Ok(ticks),
    }
}

pub fn round_sample(s: Sample) -> Result<WholeSample, FaultySample>
    ensures { result ≡ sample_of s }
{
    gather(round_to_tick(s.x), round_to_tick(s.y), round_to_tick(s.z))
}
