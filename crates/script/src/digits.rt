// Bytes as digits, two to a byte, the high one first: written into a lent buffer at a place, and read.
ghost use Rattle.std.specs.Prelude.{◌≡◌, ◌+◌, ◌<◌, ◌≤◌, length, IfSome};
ghost use Rattle.text.specs.Numbers.{hex_digit};
ghost use Rattle.text.specs.Writes.{Fits, Writes};
ghost use Rattle.script.specs.Bytes.{byte_digits, digits_of, digit_of};

use text::Writer;

// ---- written

fn digit(d: u8) -> u8
    requires { d < 16 }
    ensures { result ≡ hex_digit d }
{
    if d < 10 { 48 + d } else { 87 + d }
}

fn put_byte(w: &mut Writer<'_>, b: u8)
    requires { Fits w.old (byte_digits b) }
    ensures { Writes w.old (byte_digits b) w.new }
{
    w.put(digit(b / 16));
    w.put(digit(b % 16));
}

pub(crate) fn put_bytes(w: &mut Writer<'_>, bytes: &[u8])
    requires { Fits w.old (digits_of bytes.now) }
    ensures { Writes w.old (digits_of bytes.now) w.new }
{
    for b in bytes {
        put_byte(w, *b);
    }
}

// ---- read

// The digit that a byte is.
#[tactic(auto, unfolding(crate::specs::Bytes::digit_of))]
pub(crate) fn digit_of(b: u8) -> Option<u8>
    ensures value { result ≡ digit_of b }
    ensures small { IfSome result (λ d. d < 16) }
{
    match b {
        b'0'..=b'9' => Some(b - b'0'),
        b'a'..=b'f' => Some(b - b'a' + 10),
        _ => None,
    }
}
