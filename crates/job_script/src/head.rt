//! What an act of a program is, the acts inside it aside.
ghost use Rattle.std.specs.Prelude.{◌≡◌, ◌<◌, ◌≤◌, ◌++◌, ◌∷◌, length, []};

use phase_model::Terms;
use phase_modes::Mode;
use std::marker::Model;

/// The number of a phaser's name, 0 to 63, and the mode in which a child is to be registered on the
/// phaser. Names are numbered in the order in which they first stand in the text.
#[derive(Clone, Copy, Debug, PartialEq, Eq)]
pub(crate) struct Named {
    pub(crate) name: u8,
    pub(crate) mode: Mode,
}

/// The phasers that a spawn names, at most sixteen, as their names are written. Contracts see the
/// list.
#[derive(Drop)]
pub(crate) struct NamedList {
    pairs: [Named; 16],
    len: usize,
}

impl Model for NamedList {
    ghost use Rattle.std.specs.Prelude.{List, ◌≤◌, take};
    ghost use Rattle.job_script.specs.declared.head.Named.{Named};

    ghost Value = { List Named };

    ghost view = { λ s. take s.len s.pairs };

    ghost invariant = { λ s. s.len ≤ 16 };
}

impl NamedList {
    /// No phaser.
    pub(crate) fn none() -> NamedList
        ensures { result ≡ [] }
    {
        NamedList {
            pairs: [Named {
                name: 0,
                mode: Mode::Wait,
            }; 16],
            len: 0,
        }
    }

    /// How many there are, 0 to 16.
    pub(crate) fn len(&self) -> usize
        ensures length { result ≡ length self.now }
        ensures few { result ≤ 16 }
    {
        self.pairs[..self.len].len()
    }

    /// Names one more, at the end.
    pub(crate) fn push(&mut self, named: Named)
        requires { length self.old < 16 }
        ensures { self.new ≡ self.old ++ named ∷ [] }
    {
        self.pairs[self.len] = named;
        self.len += 1;
    }

    /// Them in order.
    pub(crate) fn as_slice(&self) -> &[Named]
        ensures items { result.now ≡ self.now }
        ensures few { length result.now ≤ 16 }
    {
        &self.pairs[..self.len]
    }
}

/// What an act is. The bodies of a spawn and the acts of a repeat stand beside it.
#[derive(Drop)]
pub(crate) enum Head {
    /// Makes a phaser, which has the name from then on.
    New(u8, Mode, Terms),
    /// Spawns a child; its body stands beside the head.
    Async(NamedList),
    /// The same, on all phasers of the task.
    AsyncAll,
    OpenFinish,
    ShutFinish,
    Signal,
    Wait,
    Next,
    NextSingle(u32),
    /// Sends to the phaser of a name: the accumulator, the value.
    Send(u8, u8, i32),
    /// Looks at the phaser of a name: the accumulator.
    Look(u8, u8),
    /// Makes the acts that stand beside the head, so many times.
    Repeat(u32),
}

impl Head {
    ghost use Rattle.job_script.specs.ActForms.{with_name};

    /// The same for the phaser of this name.
    pub(crate) fn with_name(self, name: u8) -> Head
        ensures { result ≡ with_name name self }
    {
        match self {
            Head::Send(_, accumulator, value) => Head::Send(name, accumulator, value),
            Head::Look(_, accumulator) => Head::Look(name, accumulator),
            head => head,
        }
    }
}
