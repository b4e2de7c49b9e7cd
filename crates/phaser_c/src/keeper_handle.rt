//! What C holds of who opened a table for tasks that stand level, and closes it.
ghost use Rattle.std.specs.Prelude.{◌≡◌, None, Some, MatchOption};
ghost use Rattle.std.specs.declared.option.Option.{Option};
ghost use Rattle.std.specs.Coded.{coded_option};
ghost use Rattle.phaser_c.specs.declared.level_keeper.LevelKeeper.{LevelKeeper as Kept};
ghost use Rattle.phaser_c.specs.contracts.level_keeper.LevelKeeper.{the_row as keeper_row};
ghost use Rattle.phaser_c.specs.Held.{held};

use crate::handle::movable;
use crate::level_keeper::LevelKeeper;
use crate::loose::Loose;
use std::alloc::Global;
use std::marker::Model;
use std::mem::replace;
use std::ptr::null_mut;

/// A keeper, as C holds it: a pointer that is null while there is none. Contracts see it as `state`. What the pointer leads to is the library's alone.
#[repr(C)]
pub struct KeeperHandle {
    at: *mut u8,
    ghost state: { Option Kept } by { coded_option keeper_row.coded },
}

impl Model for KeeperHandle {
    ghost also_owns = { λ h. held keeper_row h.at h.state };
}

impl KeeperHandle {
    /// A handle that holds no keeper.
    fn closed() -> KeeperHandle
        ensures { result.state ≡ None }
    {
        KeeperHandle { at: null_mut() }
    }

    /// A handle that holds this keeper.
    fn of(loose: Loose<LevelKeeper, Global>) -> KeeperHandle
        ensures { result.state ≡ Some loose.value }
    {
        let Loose { at, alloc: _ } = loose;
        KeeperHandle { at: at as *mut u8 }
    }

    /// What the handle held.
    fn into_loose(self, alloc: Global) -> Option<Loose<LevelKeeper, Global>>
        ensures { MatchOption result (self.state ≡ None) (λ l. self.state ≡ Some l.value) }
    {
        let KeeperHandle { at } = self;
        if at.is_null() {
            None
        } else {
            Some(Loose {
                at: at as *mut LevelKeeper,
                alloc,
            })
        }
    }

    /// Takes the keeper out, and leaves the handle closed.
    pub(crate) fn take(&mut self, alloc: Global) -> Option<Box<LevelKeeper>>
        ensures taken { MatchOption result (self.old.state ≡ None) (λ b. self.old.state ≡ Some b.value) }
        ensures closed { self.new.state ≡ None }
    {
        match replace(self, KeeperHandle::closed()).into_loose(alloc) {
            None => None,
            Some(loose) => Some(loose.into_box()),
        }
    }

    /// Puts a keeper in. One that was there is freed.
    pub(crate) fn put(&mut self, alloc: Global, keeper: Box<LevelKeeper>)
        ensures { self.new.state ≡ Some keeper.value }
    {
        let before = replace(self, KeeperHandle::of(Loose::of(movable(keeper))));
        if let Some(loose) = before.into_loose(alloc) {
            drop(loose.into_box());
        }
    }
}
