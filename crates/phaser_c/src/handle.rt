//! What C holds of a phaser.
ghost use Rattle.std.specs.Prelude.{◌≡◌, None, Some, MatchOption};
ghost use Rattle.std.specs.declared.option.Option.{Option};
ghost use Rattle.std.specs.Coded.{coded_option};
ghost use Rattle.phaser_engine.specs.Phaser.{Phaser};
ghost use Rattle.phaser_core.specs.contracts.state.PhaserState.{the_row as phaser_row};
ghost use Rattle.phaser_c.specs.Held.{held};

use crate::loose::Loose;
use phaser_core::PhaserState;
use std::alloc::Global;
use std::marker::Model;
use std::mem::replace;
use std::ptr::null_mut;

/// A phaser as C holds it: a pointer that is null while there is none. Contracts see the phaser as
/// `state`. What the pointer leads to is the library's alone.
#[repr(C)]
pub struct Handle {
    at: *mut u8,
    ghost state: { Option Phaser } by { coded_option phaser_row.coded },
}

impl Model for Handle {
    ghost also_owns = { λ h. held phaser_row h.at h.state };
}

/// The value, of a type that may go from thread to thread: so may a handle, with what it leads to.
pub(crate) fn movable<T: Send>(value: T) -> T
    ensures { result ≡ value }
{
    value
}

impl Handle {
    /// A handle that holds no phaser.
    fn closed() -> Handle
        ensures { result.state ≡ None }
    {
        Handle { at: null_mut() }
    }

    /// A handle that holds this phaser.
    fn of(loose: Loose<PhaserState, Global>) -> Handle
        ensures { result.state ≡ Some loose.value }
    {
        let Loose { at, alloc: _ } = loose;
        Handle { at: at as *mut u8 }
    }

    /// What the handle held.
    fn into_loose(self, alloc: Global) -> Option<Loose<PhaserState, Global>>
        ensures { MatchOption result (self.state ≡ None) (λ l. self.state ≡ Some l.value) }
    {
        let Handle { at } = self;
        if at.is_null() {
            None
        } else {
            Some(Loose {
                at: at as *mut PhaserState,
                alloc,
            })
        }
    }

    /// Takes the phaser out, and leaves the handle closed.
    pub(crate) fn take(&mut self, alloc: Global) -> Option<Box<PhaserState>>
        ensures taken { MatchOption result (self.old.state ≡ None) (λ b. self.old.state ≡ Some b.value) }
        ensures closed { self.new.state ≡ None }
    {
        match replace(self, Handle::closed()).into_loose(alloc) {
            None => None,
            Some(loose) => Some(loose.into_box()),
        }
    }

    /// Puts a phaser in. One that was there is freed.
    pub(crate) fn put(&mut self, alloc: Global, state: Box<PhaserState>)
        ensures { self.new.state ≡ Some state.value }
    {
        let before = replace(self, Handle::of(Loose::of(movable(state))));
        if let Some(loose) = before.into_loose(alloc) {
            drop(loose.into_box());
        }
    }
}
