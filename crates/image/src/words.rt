// A word and its eight bytes, the lowest first.
ghost use Rattle.std.specs.Prelude.{◌≡◌, [], ◌∷◌, ◌+◌, ◌≤◌, length};
ghost use Rattle.image.specs.Bytes.{word_at, Put};

pub fn word_at(s: &[u8], at: usize) -> u64
    requires { at + 8 ≤ length s.now }
    ensures { result ≡ word_at at s.now }
{
    // byte by byte, which is compiled to one load
    u64::from_le_bytes([
        s[at],
        s[at + 1],
        s[at + 2],
        s[at + 3],
        s[at + 4],
        s[at + 5],
        s[at + 6],
        s[at + 7],
    ])
}

pub fn put_u64(out: &mut [u8], at: usize, w: u64)
    requires { at + 8 ≤ length out.old }
    ensures { Put out.old at (w ∷ []) out.new }
{
    // byte by byte, which is compiled to one store
    let bytes = w.to_le_bytes();
    out[at] = bytes[0];
    out[at + 1] = bytes[1];
    out[at + 2] = bytes[2];
    out[at + 3] = bytes[3];
    out[at + 4] = bytes[4];
    out[at + 5] = bytes[5];
    out[at + 6] = bytes[6];
    out[at + 7] = bytes[7];
}
