// Reads a script of calls from standard input and writes each answer and the record after it.
#![tactic(auto)]

use player::Voice;

fn main(rt: HostRuntime) {
    player::play(&rt, Voice::Answers);
}
