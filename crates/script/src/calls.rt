// The calls of a script, read from a line.
ghost use Rattle.std.specs.Prelude.{◌≡◌, ◌||◌, eqb};
ghost use Rattle.script.specs.Words.{Reads, is_over, is_there};
ghost use Rattle.script.specs.Calls.{bare_name, name_of, sample, point, floats, opening, loaded, load};

use crate::pieces::{Settings, read_settings, read_three};
use crate::series::{Piece, Series, read_series};
use crate::words::Words;
use image::{Loaded, float_of};
use session::WholePoint;
use ticks::Sample;

#[derive(Clone, Copy)]
pub enum Name {
    Open,
    Predict,
    Correct,
    Withdraw,
    Fill,
    Start,
    Refine,
    Why,
    Save,
    Load,
    Run,
}

#[derive(Clone, Copy)]
pub struct OpenCall {
    pub settings: Settings,
    pub point: WholePoint,
    // The place past the point; 0 where a word up to there is missing.
    pub end: usize,
    pub floats: Series<f64, 64>,
}

// A call that carries nothing is the whole line.
#[tactic(auto, unfolding(crate::specs::Calls::bare_name))]
fn bare_name(line: &[u8]) -> Option<Name>
    ensures { result ≡ bare_name line.now }
{
    if line == b"predict".as_slice() {
        return Some(Name::Predict);
    }
    if line == b"withdraw".as_slice() {
        return Some(Name::Withdraw);
    }
    if line == b"save".as_slice() {
        return Some(Name::Save);
    }
    None
}

// Which call a line begins with, in at most 4,096 bytes.
#[tactic(auto, unfolding(crate::specs::Calls::name_of))]
pub fn name_of(line: &[u8]) -> Option<Name>
    ensures { result ≡ name_of line.now }
{
    if 4096 < line.len() {
        return None;
    }
    if line.starts_with(b"open") {
        return Some(Name::Open);
    }
    if line.starts_with(b"correct") {
        return Some(Name::Correct);
    }
    if line.starts_with(b"fill") {
        return Some(Name::Fill);
    }
    if line.starts_with(b"start") {
        return Some(Name::Start);
    }
    if line.starts_with(b"refine") {
        return Some(Name::Refine);
    }
    if line.starts_with(b"why") {
        return Some(Name::Why);
    }
    if line.starts_with(b"load") {
        return Some(Name::Load);
    }
    if line.starts_with(b"run") {
        return Some(Name::Run);
    }
    bare_name(line)
}

impl Piece for f64 {
    ghost use Rattle.script.specs.Calls.{float};

    ghost reader = { float };

    #[tactic(auto, unfolding(crate::specs::Calls::float))]
    fn read(words: &mut Words<'_>) -> f64 {
        float_of(words.bits())
    }
}

impl Piece for u8 {
    ghost use Rattle.script.specs.Bytes.{byte};

    ghost reader = { byte };

    fn read(words: &mut Words<'_>) -> u8 {
        words.byte()
    }
}

// Floats up to the end of the line, N at most.
#[tactic(auto, unfolding(crate::specs::Calls::floats))]
pub(crate) fn some_floats<const N: usize>(words: &mut Words<'_>) -> Series<f64, N>
    ensures { floats N words.old ≡ (result, words.new) }
{
    read_series(words)
}

// The same alone; where none is wanted, or the line is over, none is missing.
pub fn read_floats<const N: usize>(words: &mut Words<'_>) -> Result<Series<f64, N>, Series<f64, N>>
    ensures { Reads (floats N words.old) (eqb N 0 || is_over words.old || is_there words.new) result words.new }
{
    let whole = N == 0 || words.is_over();
    let floats = some_floats(words);
    if whole {
        Ok(floats)
    } else {
        words.answer(floats)
    }
}

#[tactic(auto, unfolding(crate::specs::Calls::point))]
fn read_point(words: &mut Words<'_>) -> WholePoint
    ensures { point words.old ≡ (result, words.new) }
{
    let (x, y, z) = read_three(words);
    let (vx, vy, vz) = read_three(words);
    WholePoint {
        x,
        y,
        z,
        vx,
        vy,
        vz,
    }
}

// What follows the name of an opening or of a first round.
#[tactic(auto, unfolding(crate::specs::Calls::opening))]
pub fn read_open(words: &mut Words<'_>) -> Result<OpenCall, OpenCall>
    ensures { Reads (opening words.old) (is_there words.new) result words.new }
{
    let settings = read_settings(words);
    let point = read_point(words);
    let end = words.place();
    let floats = some_floats(words);
    words.answer(OpenCall {
        settings,
        point,
        end,
        floats,
    })
}

// What follows the name of a correction or of a question why.
#[tactic(auto, unfolding(crate::specs::Calls::sample))]
pub fn read_sample(words: &mut Words<'_>) -> Result<Sample, Sample>
    ensures { Reads (sample words.old) (is_there words.new) result words.new }
{
    let x = f64::read(words);
    let y = f64::read(words);
    let z = f64::read(words);
    words.answer(Sample { x, y, z })
}

// No bytes are no word.
#[tactic(auto, unfolding(crate::specs::Calls::loaded))]
fn loaded(words: &mut Words<'_>, bytes: &[u8]) -> Loaded
    ensures { loaded bytes.now words.old ≡ (result, words.new) }
{
    if bytes.is_empty() {
        words.lose();
    }
    image::read(bytes)
}

// What follows the name of a loading: one word of digits.
#[tactic(auto, unfolding(crate::specs::Calls::load))]
pub fn read_load(words: &mut Words<'_>) -> Result<Loaded, Loaded>
    ensures { Reads (load words.old) (is_there words.new) result words.new }
{
    words.space();
    let bytes = read_series::<u8, 2048>(words);
    let read = loaded(words, bytes.as_slice());
    words.answer(read)
}

#[cfg(test)]
mod tests {
    use super::read_floats;
    use crate::words::Words;

    // Where none is wanted none is missing; a word that is none is missing; so many are read, and the rest of the line stays.
    #[test]
    fn floats_of_a_line(rt: HostRuntime) {
        let line = b"refine 3ff0000000000000 4000000000000000";
        for at in [0, 6, 100] {
            let mut words = Words::new(line, at);
            assert!(rt; read_floats::<0>(&mut words).is_ok(), "none wanted at {at}");
            assert_eq!(rt; words.is_there(), at != 0, "the place stays {at}");
        }
        assert!(rt; read_floats::<64>(&mut Words::new(line, 0)).is_err());
        assert!(rt; read_floats::<64>(&mut Words::new(b"", 0)).is_ok());
        let mut words = Words::new(line, 6);
        match read_floats::<1>(&mut words) {
            Ok(floats) => assert_eq!(rt; floats.as_slice(), [1.0].as_slice()),
            Err(_) => assert!(rt; false),
        }
        match read_floats::<64>(&mut words) {
            Ok(floats) => assert_eq!(rt; floats.as_slice(), [2.0].as_slice()),
            Err(_) => assert!(rt; false),
        }
        assert!(rt; words.is_over());
        assert!(rt; read_floats::<64>(&mut Words::new(line, 5)).is_err());
    }
}
