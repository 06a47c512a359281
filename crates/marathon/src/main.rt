// Steps a session of nine points a million times, with second corrections and withdrawals on the way, and checks at every
// accepted point that the formulas without sums hold on what the answers carried.
#![tactic(auto)]

mod calls;
mod course;
mod formulas;
mod near;
mod track;

use axis::Motion;

// The last point of an axis.
fn say_point(rt: &HostRuntime, name: &str, last: Motion) {
    let (p, v) = (last.position, last.velocity);
    let _taken = println!(rt; "{name} {} {} {} {}", p.whole, p.part, v.whole, v.part).is_ok();
}

fn say_count(rt: &HostRuntime, name: &str, count: u64) {
    let _taken = println!(rt; "{name} {count}").is_ok();
}

fn main(rt: HostRuntime) {
    let mut course = course::begin();
    course.run();
    say_point(&rt, "x", course.x.last);
    say_point(&rt, "y", course.y.last);
    say_point(&rt, "z", course.z.last);
    let host = course.host;
    say_count(&rt, "accepted", host.seen.accepted);
    say_count(&rt, "again", host.seen.again);
    say_count(&rt, "withdrawn", host.seen.withdrawn);
    say_count(&rt, "failed", host.seen.failed);
    let number = calls::refused_prediction(host.session);
    say_count(&rt, "one more is refused", u64::from(number));
}
