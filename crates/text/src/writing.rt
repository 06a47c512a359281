// Bytes written into a lent buffer, one after the other.
ghost use Rattle.std.specs.Prelude.{◌≡◌, [], ◌∷◌, ◌≤◌, ◌<◌, nat_abs};
ghost use Rattle.text.specs.Numbers.{decimal, signed, numbers, hex_digit, hex_digits, hex};
ghost use Rattle.text.specs.Writes.{Begins, Fits, Writes};

// A lent buffer, and the place where the next byte goes.
#[derive(Drop)]
pub struct Writer<'a> {
    out: &'a mut [u8],
    at: usize,
}

impl<'a> Writer<'a> {
    // At the start of a buffer.
    pub fn new(out: &'a mut [u8]) -> Writer<'a>
        ensures { Begins out.entry 0 result }
    {
        Writer { out, at: 0 }
    }

    // Past what a buffer holds already.
    pub fn at(out: &'a mut [u8], at: usize) -> Writer<'a>
        ensures { Begins out.entry at result }
    {
        Writer { out, at }
    }

    // The place past what was written.
    pub fn place(&self) -> usize
        ensures { result ≡ self.now.at }
    {
        self.at
    }

    pub fn put(&mut self, b: u8)
        requires { Fits self.old (b ∷ []) }
        ensures { Writes self.old (b ∷ []) self.new }
    {
        let Writer { out, at } = self;
        out[*at] = b;
        *at += 1;
    }

    pub fn put_word(&mut self, word: &[u8])
        requires { Fits self.old word.now }
        ensures { Writes self.old word.now self.new }
    {
        for b in word {
            self.put(*b);
        }
    }

    pub fn put_decimal(&mut self, n: u64)
        requires { Fits self.old (decimal n) }
        ensures { Writes self.old (decimal n) self.new }
    {
        if n < 10 {
            self.put(b'0' + n as u8);
        } else {
            self.put_decimal(n / 10);
            self.put(b'0' + (n % 10) as u8);
        }
    }

    pub fn put_signed(&mut self, z: i64)
        requires { Fits self.old (signed z) }
        ensures { Writes self.old (signed z) self.new }
    {
        if z < 0 {
            self.put(b'-');
        }
        self.put_decimal(z.unsigned_abs());
    }

    // Each number, after a space.
    pub fn put_numbers(&mut self, row: &[i64])
        requires { Fits self.old (numbers row.now) }
        ensures { Writes self.old (numbers row.now) self.new }
    {
        for z in row {
            self.put(b' ');
            self.put_signed(*z);
        }
    }

    // The last k hexadecimal digits.
    fn put_hex_digits(&mut self, k: usize, n: u64)
        requires { Fits self.old (hex_digits k n) }
        ensures { Writes self.old (hex_digits k n) self.new }
    {
        if 0 < k {
            self.put_hex_digits(k - 1, n / 16);
            self.put(hex_digit(n % 16));
        }
    }

    pub fn put_hex(&mut self, n: u64)
        requires { Fits self.old (hex n) }
        ensures { Writes self.old (hex n) self.new }
    {
        self.put_hex_digits(16, n);
    }
}

// How far a number is from 0.
pub fn size(z: i64) -> u64
    ensures { result ≡ nat_abs z }
{
    z.unsigned_abs()
}

fn hex_digit(d: u64) -> u8
    requires { d < 16 }
    ensures { result ≡ hex_digit d }
{
    if d < 10 {
        b'0' + d as u8
    } else {
        b'a' + (d as u8 - 10)
    }
}
