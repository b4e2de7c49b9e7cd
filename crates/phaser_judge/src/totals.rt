//! What a judge counts.
ghost use Rattle.std.specs.Prelude.{◌≡◌, []};

use crate::event::Named;

/// How many there were among the events that were accepted. A number that would need more than 64 bits
/// stays at the greatest that has 64.
#[derive(Clone, Copy, Debug, PartialEq, Eq)]
pub struct Totals {
    pub events: u64,
    /// How many phasers were made.
    pub made: u64,
    /// How many registrations there were, those of the makers among them.
    pub registrations: u64,
    /// How often a task signalled its phase.
    pub signals: u64,
    /// How often a task ended its turn.
    pub passes: u64,
    /// How often a task left a phaser.
    pub drops: u64,
    /// How many values were sent.
    pub sends: u64,
}

impl Totals {
    ghost use Rattle.phaser_judge.specs.Courses.{counted, totals_of};

    /// Of no event.
    pub(crate) fn none() -> Totals
        ensures { result ≡ totals_of [] }
    {
        Totals {
            events: 0,
            made: 0,
            registrations: 0,
            signals: 0,
            passes: 0,
            drops: 0,
            sends: 0,
        }
    }

    /// Counts an event.
    pub(crate) fn count(&mut self, event: &Named)
        ensures { self.new ≡ counted self.old event.now }
    {
        self.events = self.events.saturating_add(1);
        match event {
            Named::Make(..) => {
                self.made = self.made.saturating_add(1);
                self.registrations = self.registrations.saturating_add(1);
            }
            Named::Reg(..) => self.registrations = self.registrations.saturating_add(1),
            Named::Sig(..) => self.signals = self.signals.saturating_add(1),
            Named::Pass(_) => self.passes = self.passes.saturating_add(1),
            Named::Send(..) => self.sends = self.sends.saturating_add(1),
            Named::Drop(_) => self.drops = self.drops.saturating_add(1),
            _ => {}
        }
    }
}
