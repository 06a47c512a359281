// The text of a moment, written into a lent buffer.
ghost use Rattle.std.specs.Prelude.{◌≡◌, ◌%◌};
ghost use Rattle.text.specs.Numbers.{digit};
ghost use Rattle.text.specs.Writes.{RoomFor, Writes};
ghost use Rattle.calendar.specs.Text.{time_text};

use crate::Moment;
use text::Writer;

// The character of a number's last digit.
fn digit(n: u64) -> u8
    ensures { result ≡ digit (n % 10) }
{
    b'0' + (n % 10) as u8
}

pub fn time_bytes(m: Moment) -> [u8; 19]
    ensures { result ≡ time_text m }
{
    [
        digit(m.year / 1000),
        digit(m.year / 100),
        digit(m.year / 10),
        digit(m.year),
        b'-',
        digit(m.month / 10),
        digit(m.month),
        b'-',
        digit(m.day / 10),
        digit(m.day),
        b'T',
        digit(m.hour / 10),
        digit(m.hour),
        b':',
        digit(m.minute / 10),
        digit(m.minute),
        b':',
        digit(m.second / 10),
        digit(m.second),
    ]
}

pub fn put_time(w: &mut Writer<'_>, m: Moment)
    requires { RoomFor w.old 19 }
    ensures { Writes w.old (time_text m) w.new }
{
    let text = time_bytes(m);
    w.put_word(&text);
}
