// What a call leaves in the two slices.
ghost use Rattle.std.specs.Prelude.{◌≡◌, ◌+◌, ◌≤◌, length};
ghost use Rattle.image.specs.Bytes.{Put};
ghost use Rattle.image.specs.Layout.{record_bytes};
ghost use Rattle.host.specs.Answers.{reported_words, motion_reported, point_reported, answer_words, answer_bytes};

use exact::Reported;
use image::{bits_of, put_exact, put_record, put_u64};
use session::Session;
use steps::{Answer, ReportedMotion, ReportedPoint};

fn put_reported(out: &mut [u8], at: usize, r: Reported)
    requires { at + 24 ≤ length out.old }
    ensures { Put out.old at (reported_words r) out.new }
{
    put_exact(out, at, r.exact);
    put_u64(out, at + 16, bits_of(r.report));
}

fn put_motion(out: &mut [u8], at: usize, m: ReportedMotion)
    requires { at + 48 ≤ length out.old }
    ensures { Put out.old at (motion_reported m) out.new }
{
    put_reported(out, at, m.position);
    put_reported(out, at + 24, m.velocity);
}

fn put_point(out: &mut [u8], at: usize, q: ReportedPoint)
    requires { at + 144 ≤ length out.old }
    ensures { Put out.old at (point_reported q) out.new }
{
    put_motion(out, at, q.x);
    put_motion(out, at + 48, q.y);
    put_motion(out, at + 96, q.z);
}

fn put_answer(out: &mut [u8], a: Answer)
    requires { 200 ≤ length out.old }
    ensures { Put out.old 0 (answer_words a) out.new }
{
    put_u64(out, 0, a.kind as u64);
    put_point(out, 8, a.point);
    put_motion(out, 152, a.change);
}

// A record's bytes, and those of an answer.
pub(crate) fn leave(image: &mut [u8], answer: &mut [u8], s: Session, a: Answer) -> u32
    requires { (length image.old ≡ 656) × (length answer.old ≡ 200) }
    ensures { (result ≡ a.number) × (image.new ≡ record_bytes s) × (answer.new ≡ answer_bytes a) }
{
    put_record(image, s);
    put_answer(answer, a);
    a.number as u32
}
