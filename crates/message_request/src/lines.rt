// The lines of a text: where a word stands, where a line ends, and a line read as a word and what follows it.
ghost use Rattle.std.specs.Prelude.{◌≡◌, drop, position};
ghost use Rattle.message_request.specs.Lines.{is_newline, past_word, line_end, line_number, begun, stopped_at, rest_line, natural_line, rest_in, natural_in};

use crate::Rest;
use text::read_decimal;

// The bytes from a place on; none where the text is over before it.
fn from_place(text: &[u8], at: usize) -> &[u8]
    ensures { result.now ≡ drop at text.now }
{
    &text[at.min(text.len())..]
}

// The place past a word that stands at a place.
#[tactic(auto, unfolding(crate::specs::Lines::past_word))]
pub(crate) fn past_word(text: &[u8], at: usize, word: &[u8]) -> Option<usize>
    ensures { result ≡ past_word text.now at word.now }
{
    if from_place(text, at).starts_with(word) {
        Some(at + word.len())
    } else {
        None
    }
}

// How many bytes stand before the first newline.
fn before_newline(text: &[u8]) -> Option<usize>
    ensures { result ≡ position is_newline text.now }
{
    text.iter().position(|b| *b == b'\n')
}

// The place of the first newline from a place on; where there is none, the end of the text.
#[tactic(auto, unfolding(crate::specs::Lines::line_end))]
pub(crate) fn line_end(text: &[u8], from: usize) -> usize
    ensures { result ≡ line_end text.now from }
{
    let rest = from_place(text, from);
    from + before_newline(rest).unwrap_or(rest.len())
}

// The number of the line at a place, the first being 1.
#[tactic(auto, unfolding(crate::specs::Lines::line_number))]
pub(crate) fn line_number(text: &[u8], at: usize) -> u64
    ensures { result ≡ line_number text.now at }
{
    let before = &text[..at.min(text.len())];
    1 + before.iter().filter(|b| **b == b'\n').count() as u64
}

// The place past the word that a line begins with; no line is read at a fault.
#[tactic(auto, unfolding(crate::specs::Lines::begun))]
fn begun(text: &[u8], place: Result<usize, usize>, word: &[u8]) -> Option<usize>
    ensures { result ≡ begun text.now place word.now }
{
    past_word(text, place.ok()?, word)
}

// The same place, at fault.
fn stopped_at(place: Result<usize, usize>) -> Result<usize, usize>
    ensures { result ≡ stopped_at place }
{
    match place {
        Ok(at) | Err(at) => Err(at),
    }
}

// A line that is a word and the rest as it stands.
#[tactic(auto, unfolding(crate::specs::Lines::rest_line, text::specs::Numbers::ascii))]
fn rest_line(text: &[u8], place: Result<usize, usize>, word: &[u8]) -> Option<Rest>
    ensures { result ≡ rest_line text.now place word.now }
{
    let from = begun(text, place, word)?;
    let end = line_end(text, from);
    let next = Ok(past_word(text, end, b"\n")?);
    Some(Rest { from, end, next })
}

// Where no such line stands, an empty rest.
#[tactic(auto, unfolding(crate::specs::Lines::rest_in))]
pub(crate) fn read_rest(text: &[u8], place: Result<usize, usize>, word: &[u8]) -> Rest
    ensures { result ≡ rest_in text.now place word.now }
{
    rest_line(text, place, word).unwrap_or(Rest {
        from: 0,
        end: 0,
        next: stopped_at(place),
    })
}

// A line that is a word and a natural, and where the next line stands.
#[tactic(auto, unfolding(crate::specs::Lines::natural_line, text::specs::Numbers::ascii))]
pub(crate) fn natural_line(
    text: &[u8],
    place: Result<usize, usize>,
    word: &[u8],
) -> Option<(u64, Result<usize, usize>)>
    ensures { result ≡ natural_line text.now place word.now }
{
    let (value, end) = read_decimal(text, begun(text, place, word)?)?;
    let next = Ok(past_word(text, end, b"\n")?);
    Some((value, next))
}

// Where no such line stands, 0.
#[tactic(auto, unfolding(crate::specs::Lines::natural_in))]
pub(crate) fn read_natural(
    text: &[u8],
    place: Result<usize, usize>,
    word: &[u8],
) -> (u64, Result<usize, usize>)
    ensures { result ≡ natural_in text.now place word.now }
{
    natural_line(text, place, word).unwrap_or((0, stopped_at(place)))
}
