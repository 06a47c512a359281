// Takes STEPS steps of a session of P points, each a prediction and an accepted correction, and prints a checksum of all reports:
// a program to measure.
#![tactic(auto)]

mod arguments;
mod run;
mod sums;

fn complain(rt: &HostRuntime, line: &str) {
    let _taken = rt.eprintln(line).is_ok();
}

fn main(rt: HostRuntime) {
    let Some((points, steps)) = arguments::asked(&rt) else {
        complain(
            &rt,
            "pace: give P, from 1 to 9, and STEPS, from 0 to 1000000",
        );
        return;
    };
    let Some(sum) = run::paced(points, steps) else {
        complain(&rt, "pace: an answer was refused");
        return;
    };
    let _taken = println!(rt; "{sum:016x}").is_ok();
}
