//! Values that are written to a buffer of the caller.

ghost use Rattle.std.specs.Prelude.{◌≡◌, ◌<◌, ◌≤◌, ◌^◌, false, length};
ghost use Rattle.der_tlv.specs.HeaderOctets.{header_octets};
ghost use Rattle.der_c.specs.Building.{Builds, WritesMade};

use crate::fault::{Fault, SHORT_ROOM, refuse, refuse_call};
use der_elem::{Encode, Form};
use der_tlv::{Error, ErrorKind, Header, Writer};

/// A writer to a buffer of the caller, from its front on. A write that does not fit is refused
/// (10), and then each write (17).
#[derive(Debug, Drop)]
struct RoomWriter<'a> {
    room: &'a mut [u8],
    position: usize,
    failed: bool,
    ghost inside: { position ≤ length room.now },
}

impl<'a> Writer for RoomWriter<'a> {
    ghost use Rattle.der_c.specs.Writers.{room_writer_state};

    ghost state = { room_writer_state };

    fn write(&mut self, octets: &[u8]) -> Result<(), Error> {
        if self.failed {
            return Err(Error::from_kind(ErrorKind::Failed));
        }
        if octets.len() > self.room.len() - self.position {
            self.failed = true;
            return Err(Error::from_kind(ErrorKind::Overlength));
        }
        let end = self.position + octets.len();
        self.room[self.position..end].copy_from_slice(octets);
        self.position = end;
        Ok(())
    }
}

/// Writes the encoding of a value that was made to the front of a buffer, and its length to
/// `count`; or returns the error for which it was not made.
pub(crate) fn write_made<T: Encode>(
    made: Result<T, Fault>,
    room: &mut [u8],
    count: &mut usize,
    fault: &mut Fault,
) -> u32
    requires { T.Form.TAKES_MEMORY ≡ false }
    ensures { WritesMade T.Form made room.old room.new count.old count.new fault.old fault.new result }
{
    match made {
        Ok(value) => write_value(&value, room, count, fault),
        Err(reason) => {
            *fault = reason;
            reason.number
        }
    }
}

/// Writes the encoding of a value to the front of a buffer, and its length to `count`. If the
/// buffer is too short, it is unchanged, and the result is 103.
fn write_value<T: Encode>(value: &T, room: &mut [u8], count: &mut usize, fault: &mut Fault) -> u32
    requires { T.Form.TAKES_MEMORY ≡ false }
    ensures { Builds T.Form (λ v. v ≡ value.now) (λ f. ⊥) room.old room.new count.old count.new fault.old fault.new result }
{
    let len = match value.encoded_len() {
        Ok(len) => usize::from(len),
        Err(error) => return refuse(error, fault),
    };
    *count = len;
    if room.len() < len {
        return refuse_call(SHORT_ROOM, fault);
    }
    fill_with(value, &mut room[..len]);
    0
}

/// Writes the encoding of a value to a buffer that has its length.
fn fill_with<T: Encode>(value: &T, room: &mut [u8])
    requires length { length room.old ≡ length (T.Form.encoding value.now) }
    requires few { length (T.Form.encoding value.now) < 2 ^ 32 }
    requires memory { T.Form.TAKES_MEMORY ≡ false }
    ensures { room.new ≡ T.Form.encoding value.now }
{
    let mut writer = RoomWriter {
        room,
        position: 0,
        failed: false,
    };
    match value.encode(&mut writer) {
        Ok(()) => {}
        Err(_) => {}
    }
}

/// Writes a header to a buffer that has its length.
pub(crate) fn fill_with_header(header: Header, room: &mut [u8])
    requires { length room.old ≡ length (header_octets header.tag header.length) }
    ensures { room.new ≡ header_octets header.tag header.length }
{
    let mut writer = RoomWriter {
        room,
        position: 0,
        failed: false,
    };
    match header.encode(&mut writer) {
        Ok(()) => {}
        Err(_) => {}
    }
}
