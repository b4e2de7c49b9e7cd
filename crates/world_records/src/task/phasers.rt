//! What a task's record keeps of the phasers on which it is registered.
ghost use Rattle.std.specs.Prelude.{◌≡◌, ◌<◌, nat_lt, length};
ghost use Rattle.world_records.specs.inner.Registering.{making};

use super::*;
use phase_modes::PhaserNumber;

impl KeptTask {
    /// Whether it may be registered on another phaser.
    pub fn has_room(&self) -> bool
        ensures { result ≡ nat_lt (length self.now.phasers) 16 }
    {
        self.phasers.len() < MOST_PHASERS
    }

    /// Notes that it made this phaser.
    pub fn note_making(&mut self, phaser: PhaserNumber)
        requires { length self.old.phasers < 16 }
        ensures { self.new ≡ making phaser self.old }
    {
        self.phasers.push_reserved(phaser.get());
        self.acts = self.acts.saturating_add(1);
    }
}
