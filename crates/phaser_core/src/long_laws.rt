//! What holds of every history of a phaser that lives long.
ghost use Rattle.phaser_core.specs.LongLife.{LongHasRoom};

/// While there is room for 260 events more, no call is refused for want of room.
pub fn long_has_room()
    ensures { LongHasRoom }
{}
