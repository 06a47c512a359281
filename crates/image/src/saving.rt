// Saving a session into lent room, and reading one from bytes.
ghost use Rattle.std.specs.Prelude.{◌≡◌, length};
ghost use Rattle.session.specs.Moves.{closed_session};
ghost use Rattle.image.specs.Bytes.{same_bytes};
ghost use Rattle.image.specs.Layout.{record_bytes};
ghost use Rattle.image.specs.Reading.{save_number, saved_in, read_of};

use crate::Loaded;
use crate::reading::session_in;
use crate::standing::standing;
use crate::writing::put_record;
use session::{Session, closed};

// Bytes are those of a record.
fn is_record(bytes: &[u8], s: Session) -> bool
    requires { length bytes.now ≡ 656 }
    ensures { result ≡ same_bytes bytes.now (record_bytes s) }
{
    let mut room = [0u8; 656];
    put_record(&mut room, s);
    bytes == room.as_slice()
}

pub fn save(room: &mut [u8], s: Session) -> u8
    ensures { (result ≡ save_number room.old) × (room.new ≡ saved_in s room.old) }
{
    if room.len() < 656 {
        return 12;
    }
    put_record(room, standing(s));
    0
}

fn no_image() -> Loaded
    ensures { result ≡ record { number = 14; session = closed_session } }
{
    Loaded {
        number: 14,
        session: closed(),
    }
}

pub fn read(bytes: &[u8]) -> Loaded
    ensures { result ≡ read_of bytes.now }
{
    if bytes.len() != 656 {
        return no_image();
    }
    let session = standing(session_in(bytes));
    if !is_record(bytes, session) {
        return no_image();
    }
    Loaded { number: 0, session }
}
