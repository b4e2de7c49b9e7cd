//! What C holds of a phaser for threads that wait.
ghost use Rattle.std.specs.Prelude.{◌≡◌, None, Some, MatchOption};
ghost use Rattle.std.specs.declared.option.Option.{Option};
ghost use Rattle.std.specs.Coded.{coded_option};
ghost use Rattle.phaser_c.specs.declared.waiting.Waiting.{Waiting as Kept};
ghost use Rattle.phaser_c.specs.contracts.waiting.Waiting.{the_row as waiting_row};
ghost use Rattle.phaser_c.specs.Held.{held};

use crate::handle::movable;
use crate::loose::Loose;
use crate::waiting::Waiting;
use std::alloc::Global;
use std::marker::Model;
use std::mem::replace;
use std::ptr::null_mut;

/// A phaser for threads that wait, as C holds it: a pointer that is null while there is none.
/// Contracts see it as `state`. What the pointer leads to is the library's alone.
#[repr(C)]
pub struct WaitingHandle {
    at: *mut u8,
    ghost state: { Option Kept } by { coded_option waiting_row.coded },
}

impl Model for WaitingHandle {
    ghost also_owns = { λ h. held waiting_row h.at h.state };
}

impl WaitingHandle {
    /// A handle that holds no phaser.
    fn closed() -> WaitingHandle
        ensures { result.state ≡ None }
    {
        WaitingHandle { at: null_mut() }
    }

    /// A handle that holds this phaser.
    fn of(loose: Loose<Waiting, Global>) -> WaitingHandle
        ensures { result.state ≡ Some loose.value }
    {
        let Loose { at, alloc: _ } = loose;
        WaitingHandle { at: at as *mut u8 }
    }

    /// What the handle held.
    fn into_loose(self, alloc: Global) -> Option<Loose<Waiting, Global>>
        ensures { MatchOption result (self.state ≡ None) (λ l. self.state ≡ Some l.value) }
    {
        let WaitingHandle { at } = self;
        if at.is_null() {
            None
        } else {
            Some(Loose {
                at: at as *mut Waiting,
                alloc,
            })
        }
    }

    /// Takes the phaser out, and leaves the handle closed.
    pub(crate) fn take(&mut self, alloc: Global) -> Option<Box<Waiting>>
        ensures taken { MatchOption result (self.old.state ≡ None) (λ b. self.old.state ≡ Some b.value) }
        ensures closed { self.new.state ≡ None }
    {
        match replace(self, WaitingHandle::closed()).into_loose(alloc) {
            None => None,
            Some(loose) => Some(loose.into_box()),
        }
    }

    /// Puts a phaser in. One that was there is freed.
    pub(crate) fn put(&mut self, alloc: Global, state: Box<Waiting>)
        ensures { self.new.state ≡ Some state.value }
    {
        let before = replace(self, WaitingHandle::of(Loose::of(movable(state))));
        if let Some(loose) = before.into_loose(alloc) {
            drop(loose.into_box());
        }
    }
}
