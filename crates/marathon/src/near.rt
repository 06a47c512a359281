// The samples of a second correction.
use drawing::{Draw, next};

// A sample moved by -8 to 7.
fn moved(sample: i64, seed: u64) -> i64 {
    let high = seed / 32_768 % 16;
    sample.wrapping_add(high as i64 - 8)
}

// Samples near those of the first correction.
pub(crate) fn drawn_near(d: Draw) -> Draw {
    let x = next(d.seed);
    let y = next(x);
    let z = next(y);
    Draw {
        seed: z,
        x: moved(d.x, x),
        y: moved(d.y, y),
        z: moved(d.z, z),
    }
}
