//! What a task's record keeps of the registrations of a child that it is spawning.
ghost use Rattle.std.specs.Prelude.{◌≡◌, ◌<◌, length};
ghost use Rattle.world_model.specs.Continuing.{same_mode};
ghost use Rattle.world_records.specs.inner.RegisterSteps.{is_to_register, joining, register_noted, to_next_pair};

use super::*;
use phase_modes::{Mode, PhaserNumber, TaskNumber};

impl KeptTask {
    /// Whether its next event is to register this child on this phaser in this mode.
    pub fn is_to_register(&self, phaser: PhaserNumber, child: TaskNumber, mode: Mode) -> bool
        ensures { result ≡ is_to_register self.now phaser child mode }
    {
        match self.plan {
            Plan::Spawning(named, pairs, made) => match pairs.get(made) {
                Some(pair) => pair.phaser == phaser.get()
                    && is_same(pair.mode, mode)
                    && named == child.get(),
                None => false,
            },
            _ => false,
        }
    }

    /// Notes that its spawner registered it on this phaser.
    pub fn note_joining(&mut self, phaser: PhaserNumber)
        requires { length self.old.phasers < 16 }
        ensures { self.new ≡ joining phaser self.old }
    {
        self.phasers.push_reserved(phaser.get());
    }

    /// Notes that it has registered its child on the phaser of the next pair.
    pub fn note_registration(&mut self)
        ensures { self.new ≡ register_noted self.old }
    {
        self.plan = to_next_pair(self.plan);
    }
}

/// The plan with its next pair behind it: a plan to spawn goes on to the pair after that.
fn to_next_pair(plan: Plan) -> Plan
    ensures { result ≡ to_next_pair plan }
{
    match plan {
        Plan::Spawning(child, pairs, made) => {
            if (made as usize) < pairs.len() {
                Plan::Spawning(child, pairs, made + 1)
            } else {
                plan
            }
        }
        _ => plan,
    }
}

/// Whether the modes are the same.
fn is_same(mode: Mode, other: Mode) -> bool
    ensures { result ≡ same_mode mode other }
{
    Mode::within(mode, other) && Mode::within(other, mode)
}
