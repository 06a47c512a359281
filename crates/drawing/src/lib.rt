// Samples for programs that step far: drawn by a fixed rule, so that every run has the same.
#![tactic(auto)]

ghost use Rattle.std.specs.Prelude.{◌≡◌};
ghost use Rattle.drawing.specs.Draws.{next_of, centred_of, drawn_of, sample_of};

use ticks::Sample;

// Whole ticks on the three axes, and the number that the next draw begins with.
#[derive(Clone, Copy)]
pub struct Draw {
    pub seed: u64,
    pub x: i64,
    pub y: i64,
    pub z: i64,
}

// The number after another: both are below 2^31.
#[tactic(auto, unfolding(crate::specs::Draws::next_of))]
pub fn next(seed: u64) -> u64
    ensures { result ≡ next_of seed }
{
    (1_103_515_245 * (seed % 2_147_483_648) + 12_345) % 2_147_483_648
}

// Its high bits, as a number from -32768 to 32767.
#[tactic(auto, unfolding(crate::specs::Draws::centred_of))]
fn centred(seed: u64) -> i64
    ensures { result ≡ centred_of seed }
{
    let high = seed / 32_768 % 65_536;
    high as i64 - 32_768
}

#[tactic(auto, unfolding(crate::specs::Draws::drawn_of))]
pub fn drawn(seed: u64) -> Draw
    ensures { result ≡ drawn_of seed }
{
    let x = next(seed);
    let y = next(x);
    let z = next(y);
    Draw {
        seed: z,
        x: centred(x),
        y: centred(y),
        z: centred(z),
    }
}

// A function and not From<Draw>, since the seed is left out.
#[tactic(auto, unfolding(crate::specs::Draws::sample_of))]
pub fn sample_of(d: Draw) -> Sample
    ensures { result ≡ sample_of d }
{
    Sample {
        x: std::num::nearest_i64_to_f64(d.x),
        y: std::num::nearest_i64_to_f64(d.y),
        z: std::num::nearest_i64_to_f64(d.z),
    }
}
