// The words of a record, put into lent bytes.
ghost use Rattle.std.specs.Prelude.{◌≡◌, [], ◌∷◌, ◌+◌, ◌≤◌, ◌<◌, length};
ghost use Rattle.image.specs.Bytes.{Put};
ghost use Rattle.image.specs.Layout.{exact_words, motion_words, state_word, settings_words, axis_sums, sums_words, place_words, samples_words, estimate_words, contents, record_words};

use crate::words::put_u64;
use axis::{Axis, Motion};
use exact::Exact;
use session::{Session, State};

pub fn put_exact(out: &mut [u8], at: usize, e: Exact)
    requires { at + 16 ≤ length out.old }
    ensures { Put out.old at (exact_words e) out.new }
{
    put_u64(out, at, e.whole.cast_unsigned());
    put_u64(out, at + 8, e.part as u64);
}

fn put_motion(out: &mut [u8], at: usize, m: Motion)
    requires { at + 32 ≤ length out.old }
    ensures { Put out.old at (motion_words m) out.new }
{
    put_exact(out, at, m.position);
    put_exact(out, at + 16, m.velocity);
}

fn put_sums_of(out: &mut [u8], at: usize, a: Axis)
    requires { at + 64 ≤ length out.old }
    ensures { Put out.old at (axis_sums a) out.new }
{
    put_exact(out, at, a.first);
    put_exact(out, at + 16, a.second);
    put_motion(out, at + 32, a.older);
}

fn put_sums(out: &mut [u8], at: usize, s: Session)
    requires { at + 192 ≤ length out.old }
    ensures { Put out.old at (sums_words s) out.new }
{
    put_sums_of(out, at, s.x);
    put_sums_of(out, at + 64, s.y);
    put_sums_of(out, at + 128, s.z);
}

fn state_word(s: State) -> u64
    ensures { result ≡ state_word s }
{
    match s {
        State::Closed => 0,
        State::Settled => 1,
        State::Awaiting => 2,
        State::Starting => 3,
    }
}

fn put_settings(out: &mut [u8], at: usize, s: Session)
    requires { at + 56 ≤ length out.old }
    ensures { Put out.old at (settings_words s) out.new }
{
    put_u64(out, at, state_word(s.state));
    put_u64(out, at + 8, s.points as u64);
    put_u64(out, at + 16, s.tolerances.position);
    put_u64(out, at + 24, s.tolerances.velocity);
    put_u64(out, at + 32, s.limit);
    put_u64(out, at + 40, s.accepted);
    put_u64(out, at + 48, s.corrections);
}

fn put_place(out: &mut [u8], at: usize, i: usize, s: Session)
    requires { (i < 9) × (at + 24 ≤ length out.old) }
    ensures { Put out.old at (place_words i s) out.new }
{
    put_u64(out, at, s.x.samples[i].cast_unsigned());
    put_u64(out, at + 8, s.y.samples[i].cast_unsigned());
    put_u64(out, at + 16, s.z.samples[i].cast_unsigned());
}

fn put_samples(out: &mut [u8], at: usize, s: Session)
    requires { at + 216 ≤ length out.old }
    ensures { Put out.old at (samples_words s) out.new }
{
    for i in 0..9 {
        put_place(out, at + 24 * i, i, s);
    }
}

fn put_estimate(out: &mut [u8], at: usize, s: Session)
    requires { at + 96 ≤ length out.old }
    ensures { Put out.old at (estimate_words s) out.new }
{
    put_motion(out, at, s.x.estimate);
    put_motion(out, at + 32, s.y.estimate);
    put_motion(out, at + 64, s.z.estimate);
}

// An entry of the table of contents.
fn put_entry(out: &mut [u8], at: usize, kind: u64, offset: u64, size: u64)
    requires { at + 24 ≤ length out.old }
    ensures { Put out.old at (kind ∷ offset ∷ size ∷ []) out.new }
{
    put_u64(out, at, kind);
    put_u64(out, at + 8, offset);
    put_u64(out, at + 16, size);
}

fn put_contents(out: &mut [u8])
    requires { 96 ≤ length out.old }
    ensures { Put out.old 0 contents out.new }
{
    put_entry(out, 0, 1, 96, 56);
    put_entry(out, 24, 2, 152, 192);
    put_entry(out, 48, 3, 344, 216);
    put_entry(out, 72, 4, 560, 96);
}

pub fn put_record(out: &mut [u8], s: Session)
    requires { 656 ≤ length out.old }
    ensures { Put out.old 0 (record_words s) out.new }
{
    put_contents(out);
    put_settings(out, 96, s);
    put_sums(out, 152, s);
    put_samples(out, 344, s);
    put_estimate(out, 560, s);
}
