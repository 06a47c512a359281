// The line of a run, and its answer as a line, written into a lent buffer.
ghost use mathlib.Core.List.{flatten};
ghost use Rattle.text.specs.Writes.{Fits, HasRoom, Writes};
ghost use Rattle.script.specs.Lines.{run_line};
ghost use Rattle.script.specs.Words.{Reads, is_there};
ghost use Rattle.script.specs.Runs.{run};

use crate::calls::some_floats;
use crate::lines::{put_natural, put_two};
use crate::series::Series;
use crate::words::Words;
use text::Writer;

// The points wanted, and the floats of the samples.
#[derive(Clone, Copy)]
pub struct RunCall {
    pub wanted: u64,
    pub floats: Series<f64, 192>,
}

// What follows the name of a run: a number, and floats up to the end of the line.
#[tactic(auto, unfolding(crate::specs::Runs::run))]
pub fn read_run(words: &mut Words<'_>) -> Result<RunCall, RunCall>
    ensures { Reads (run words.old) (is_there words.new) result words.new }
{
    let wanted = words.natural();
    let floats = some_floats(words);
    words.answer(RunCall { wanted, floats })
}

// The number, the points settled and the samples used.
pub fn put_run(w: &mut Writer<'_>, number: u8, points: u64, used: u64)
    requires { HasRoom w.old (run_line number points used) }
    ensures { Writes w.old (flatten (run_line number points used)) w.new }
{
    w.put_word(b"run");
    put_natural(w, number as u64);
    put_two(w, points, used);
    w.put(b'\n');
}
