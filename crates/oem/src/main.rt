// Ephemeris messages. Standard input has a request for `oem write`, which writes the message that it asks for, and a message for `oem read`,
// which prints what it says, and for `oem mend`, which mends it.
#![tactic(auto)]

mod answers;
mod mending;
mod output;
mod reading;
mod reading_messages;
mod writing;

use std::env::Env;

fn main(rt: HostRuntime) {
    let mut word = [0u8; 4096];
    let n = rt.arg(1, &mut word).unwrap_or(0);
    match &word[..n] {
        b"write" => writing::run(&rt),
        b"read" => reading_messages::run(&rt),
        b"mend" => mending::run(&rt),
        _ => output::put_error(&rt, b"oem: the first argument is write, read or mend\n"),
    }
}
