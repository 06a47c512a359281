// The words of a line, read one after another, each after one space.
ghost use Rattle.std.specs.Prelude.{◌≡◌, ◌<◌};
ghost use Rattle.script.specs.Words.{Reads, is_over, is_there, lost, given, a_space, up_to, natural, integer, bits};
ghost use Rattle.script.specs.Bytes.{digit, byte};

use crate::digits::digit_of;
use std::marker::Model;

// A line, and the place up to which it was read: 0 where a word was missing, and then each one after it is missing.
#[derive(Drop)]
pub struct Words<'a> {
    line: &'a [u8],
    at: usize,
}

impl<'a> Model for Words<'a> {
    ghost use Rattle.script.specs.Words.{Place};

    ghost Value = { Place };

    ghost view = { λ w. record { line = w.line.now; at = w.at } };
}

impl<'a> Words<'a> {
    pub fn new(line: &'a [u8], at: usize) -> Words<'a>
        ensures { result ≡ record { line = line.now; at = at } }
    {
        Words { line, at }
    }

    pub(crate) fn place(&self) -> usize
        ensures { result ≡ self.now.at }
    {
        self.at
    }

    // Whether the line ends here.
    pub fn is_over(&self) -> bool
        ensures { result ≡ is_over self.now }
    {
        self.at == self.line.len()
    }

    // Whether no word was missing.
    pub fn is_there(&self) -> bool
        ensures { result ≡ is_there self.now }
    {
        0 < self.at
    }

    // A space; none stands at a line's start.
    #[tactic(auto, unfolding(crate::specs::Words::a_space))]
    pub(crate) fn space(&mut self)
        ensures { a_space self.old ≡ (tt, self.new) }
    {
        if self.at == 0 || self.line.get(self.at) != Some(&b' ') {
            self.at = 0;
        } else {
            self.at += 1;
        }
    }

    // A word is missing.
    pub(crate) fn lose(&mut self)
        ensures { self.new ≡ lost self.old }
    {
        self.at = 0;
    }

    pub(crate) fn given<T: Drop>(&mut self, value: Option<T>, none: T) -> T
        ensures { given none value self.old ≡ (result, self.new) }
    {
        match value {
            Some(value) => value,
            None => {
                self.at = 0;
                none
            }
        }
    }

    // What is read up to a place of the line.
    fn up_to<T: Drop>(&mut self, read: Option<(T, usize)>, none: T) -> T
        ensures { up_to none read self.old ≡ (result, self.new) }
    {
        let (value, end) = read.unwrap_or((none, 0));
        self.at = end;
        value
    }

    #[tactic(auto, unfolding(crate::specs::Words::natural))]
    pub(crate) fn natural(&mut self) -> u64
        ensures { natural self.old ≡ (result, self.new) }
    {
        self.space();
        if self.at == 0 {
            return 0;
        }
        let read = text::read_decimal(self.line, self.at);
        self.up_to(read, 0)
    }

    #[tactic(auto, unfolding(crate::specs::Words::integer))]
    pub(crate) fn integer(&mut self) -> i64
        ensures { integer self.old ≡ (result, self.new) }
    {
        self.space();
        if self.at == 0 {
            return 0;
        }
        let read = text::read_signed(self.line, self.at);
        self.up_to(read, 0)
    }

    // The bits of a float.
    #[tactic(auto, unfolding(crate::specs::Words::bits))]
    pub(crate) fn bits(&mut self) -> u64
        ensures { bits self.old ≡ (result, self.new) }
    {
        self.space();
        if self.at == 0 {
            return 0;
        }
        let read = text::read_hex(self.line, self.at);
        self.up_to(read, 0)
    }

    #[tactic(auto, unfolding(crate::specs::Bytes::digit))]
    fn digit(&mut self) -> u8
        ensures value { digit self.old ≡ (result, self.new) }
        ensures small { result < 16 }
    {
        if self.at == 0 {
            return 0;
        }
        let Some(b) = self.line.get(self.at) else {
            self.at = 0;
            return 0;
        };
        let Some(d) = digit_of(*b) else {
            self.at = 0;
            return 0;
        };
        self.at += 1;
        d
    }

    // A byte as two digits, the high one first.
    #[tactic(auto, unfolding(crate::specs::Bytes::byte))]
    pub(crate) fn byte(&mut self) -> u8
        ensures { byte self.old ≡ (result, self.new) }
    {
        let high = self.digit();
        let low = self.digit();
        if self.at == 0 {
            return 0;
        }
        high * 16 + low
    }

    // What was read up to here: an error where a word was missing.
    pub(crate) fn answer<T>(&self, value: T) -> Result<T, T>
        ensures { Reads (value, self.now) (is_there self.now) result self.now }
    {
        if self.at == 0 { Err(value) } else { Ok(value) }
    }
}
