// Reads a script of calls from standard input and writes why each correction that is not accepted is answered as it is.
#![tactic(auto)]

use player::Voice;

fn main(rt: HostRuntime) {
    player::play(&rt, Voice::Sentences);
}
