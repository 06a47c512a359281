// Standard input, read to its end.
ghost use Rattle.std.specs.Prelude.{◌+◌, ◌≤◌, ◌<◌, ℕ, List, length, IfOk};
ghost use Rattle.std.specs.Borrow.{Bor};

use crate::output::fail;
use std::io::{Read, Result};

// How many bytes one read put after those that are held.
fn read_more(rt: &HostRuntime, input: &mut [u8], held: usize) -> Result<usize>
    requires { held ≤ length input.old }
    ensures { IfOk result (λ more. held + more ≤ length input.old) }
{
    let mut stdin = rt.stdin();
    stdin.read(&mut input[held..])
}

// How many bytes came. A buffer that is full afterwards may have left bytes unread. Each read says how far it came: no index is counted here.
fn read_all(rt: &HostRuntime, input: &mut [u8]) -> Result<usize>
    ensures { IfOk result (λ held. held ≤ length input.old) }
{
    let mut held = 0;
    while held < input.len() {
        match read_more(rt, input, held)? {
            0 => break,
            more => held += more,
        }
    }
    Ok(held)
}

// Answers what standard input holds, where it does not fill the buffer, and else refuses it. A read that fails is told on standard error.
pub(crate) fn serve<R: FnOnce(), A: FnOnce(&[u8])>(
    rt: &HostRuntime,
    input: &mut [u8],
    refuse: R,
    answer: A,
)
    requires may_refuse { R.IsAlwaysCallable refuse }
    requires may_answer { (text : Bor (List ℕ)) → length text.now < length input.old → A.pre answer text }
{
    match read_all(rt, input) {
        Ok(held) if held < input.len() => answer(&input[..held]),
        Ok(_) => refuse(),
        Err(error) => fail(rt, "oem: standard input", error),
    }
}
