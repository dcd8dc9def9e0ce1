//! Octets that are written to a buffer of the caller.

ghost use Rattle.der_c.specs.Rooms.{Written};

use crate::fault::{Fault, SHORT_ROOM, refuse_call};

/// Writes an encoding to the front of a buffer, and its length to `count`. If the buffer is too
/// short, it is unchanged, and the result is 103.
pub(crate) fn fill(encoding: &[u8], room: &mut [u8], count: &mut usize, fault: &mut Fault) -> u32
    ensures { Written encoding.now room.old room.new count.new fault.old fault.new result }
{
    *count = encoding.len();
    if room.len() < encoding.len() {
        return refuse_call(SHORT_ROOM, fault);
    }
    room[..encoding.len()].copy_from_slice(encoding);
    0
}
