//! How much may be alive at once.
ghost use Rattle.live_rt.specs.Rooms.{has_room, may_be};
ghost use Rattle.std.specs.Prelude.{◌≡◌};

/// How many phasers and how many finishes may be alive at once. Their slots are taken at the start, a few
/// hundred bytes each; a phaser takes its memory when it is made, and gives it back when its last task
/// leaves.
#[derive(Clone, Copy, Debug, PartialEq, Eq)]
pub struct Room {
    /// 1 to 65,536.
    pub phasers: u32,
    /// 1 to 65,536, the one round all tasks with them.
    pub finishes: u32,
}

/// The most phasers, or finishes, at once.
const MOST_SLOTS: u32 = 65_536;

/// Whether there may be so many at once.
fn is_slots(number: u32) -> bool
    ensures { result ≡ may_be number }
{
    0 < number && number <= MOST_SLOTS
}

impl Room {
    /// Whether each of both numbers is 1 to 65,536.
    pub fn fits(self) -> bool
        ensures { result ≡ has_room self }
    {
        is_slots(self.phasers) && is_slots(self.finishes)
    }
}
