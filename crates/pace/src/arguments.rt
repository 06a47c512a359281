// The program's arguments as numbers.
ghost use Rattle.std.specs.Prelude.{◌≤◌, IfSome};

use std::env::{Env, FillError};

// Argument i, if it is a number and nothing else.
fn number(rt: &HostRuntime, i: usize) -> Option<u64> {
    let mut buf = [0u8; 16];
    let n = rt.arg(i, &mut buf).unwrap_or(0);
    let (value, end) = text::read_decimal(&buf[..n], 0)?;
    if end == n { Some(value) } else { None }
}

// Whether there is an argument i, of any length.
fn is_given(rt: &HostRuntime, i: usize) -> bool {
    let mut buf = [0u8; 16];
    !matches!(rt.arg(i, &mut buf), Err(FillError::NotPresent))
}

// P and STEPS, where two arguments are given and are numbers to run with.
pub(crate) fn asked(rt: &HostRuntime) -> Option<(usize, u64)>
    ensures { IfSome result (λ p. p.0 ≤ 9) }
{
    if !is_given(rt, 2) || is_given(rt, 3) {
        return None;
    }
    let points = number(rt, 1)?;
    let steps = number(rt, 2)?;
    if (1..=9).contains(&points) && steps <= 1_000_000 {
        Some((points as usize, steps))
    } else {
        None
    }
}
