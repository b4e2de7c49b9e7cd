//! Texts that C is given, in a room of its own.
ghost use Rattle.std.specs.Prelude.{◌≡◌, length, nat_le};
ghost use Rattle.phaser_c.specs.Told.{told};

/// Writes the text to the front of the room, if it fits, and says how long it is.
pub(crate) fn tell(text: &[u8], room: &mut [u8], written: &mut usize) -> bool
    ensures fits { result ≡ nat_le (length text.now) (length room.old) }
    ensures length { written.new ≡ length text.now }
    ensures text { room.new ≡ told text.now room.old }
{
    let length = text.len();
    *written = length;
    if length > room.len() {
        return false;
    }
    room[..length].copy_from_slice(text);
    true
}
