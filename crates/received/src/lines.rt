// Lines of a text by their places.
ghost use Rattle.std.specs.Prelude.{◌≡◌, ◌<◌, ◌≤◌, length};
ghost use Rattle.received.specs.Lines.{past_line, newline_in};

// The place of the first newline.
pub(crate) fn newline_in(text: &[u8]) -> Option<usize>
    ensures { result ≡ newline_in text.now }
{
    text.iter().position(|b| *b == b'\n')
}

// The place past the line at a place.
pub(crate) fn past_line(text: &[u8], at: usize) -> usize
    requires { at ≤ length text.now }
    ensures value { result ≡ past_line text.now at }
    ensures within { result ≤ length text.now }
    ensures more { at < length text.now → at < result }
{
    match newline_in(&text[at..]) {
        Some(i) => at + i + 1,
        None => text.len(),
    }
}
