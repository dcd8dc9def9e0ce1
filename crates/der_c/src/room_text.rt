//! Text that is written to a buffer of the caller as far as it fits.

ghost use Rattle.std.specs.Prelude.{◌≡◌};
ghost use Rattle.der_c.specs.RoomText.{Ends, Puts};

/// Writes a text to a buffer at a position, as far as it fits, and returns the position after it.
pub(crate) fn put(text: &[u8], room: &mut [u8], position: usize) -> usize
    ensures { Puts text.now room.old position room.new result }
{
    if position < room.len() {
        let count = text.len().min(room.len() - position);
        room[position..position + count].copy_from_slice(&text[..count]);
    }
    position.saturating_add(text.len())
}

/// Writes a zero octet after a text of this length, or over the last octet of the buffer if the
/// text does not fit before it.
pub(crate) fn end_text(room: &mut [u8], length: usize)
    ensures { Ends length room.old room.new }
{
    if let Some(last) = room.len().checked_sub(1) {
        room[length.min(last)] = 0;
    }
}
