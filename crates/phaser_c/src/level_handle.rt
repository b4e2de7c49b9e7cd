//! What C holds of a task that stands level with others.
ghost use Rattle.std.specs.Prelude.{◌≡◌, None, Some, MatchOption};
ghost use Rattle.std.specs.declared.option.Option.{Option};
ghost use Rattle.std.specs.Coded.{coded_option};
ghost use Rattle.phaser_c.specs.declared.level_task.LevelTask.{LevelTask as Kept};
ghost use Rattle.phaser_c.specs.contracts.level_task.LevelTask.{the_row as task_row};
ghost use Rattle.phaser_c.specs.Held.{held};

use crate::handle::movable;
use crate::level_task::LevelTask;
use crate::loose::Loose;
use std::alloc::Global;
use std::marker::Model;
use std::mem::replace;
use std::ptr::null_mut;

/// A task that stands level, as C holds it: a pointer that is null while there is none. Contracts
/// see it as `state`. What the pointer leads to is the library's alone.
#[repr(C)]
pub struct LevelHandle {
    at: *mut u8,
    ghost state: { Option Kept } by { coded_option task_row.coded },
}

impl Model for LevelHandle {
    ghost also_owns = { λ h. held task_row h.at h.state };
}

impl LevelHandle {
    /// A handle that holds no task.
    fn closed() -> LevelHandle
        ensures { result.state ≡ None }
    {
        LevelHandle { at: null_mut() }
    }

    /// A handle that holds this task.
    fn of(loose: Loose<LevelTask, Global>) -> LevelHandle
        ensures { result.state ≡ Some loose.value }
    {
        let Loose { at, alloc: _ } = loose;
        LevelHandle { at: at as *mut u8 }
    }

    /// What the handle held.
    fn into_loose(self, alloc: Global) -> Option<Loose<LevelTask, Global>>
        ensures { MatchOption result (self.state ≡ None) (λ l. self.state ≡ Some l.value) }
    {
        let LevelHandle { at } = self;
        if at.is_null() {
            None
        } else {
            Some(Loose {
                at: at as *mut LevelTask,
                alloc,
            })
        }
    }

    /// Takes the task out, and leaves the handle closed.
    pub(crate) fn take(&mut self, alloc: Global) -> Option<Box<LevelTask>>
        ensures taken { MatchOption result (self.old.state ≡ None) (λ b. self.old.state ≡ Some b.value) }
        ensures closed { self.new.state ≡ None }
    {
        match replace(self, LevelHandle::closed()).into_loose(alloc) {
            None => None,
            Some(loose) => Some(loose.into_box()),
        }
    }

    /// Puts a task in. One that was there is freed.
    pub(crate) fn put(&mut self, alloc: Global, task: Box<LevelTask>)
        ensures { self.new.state ≡ Some task.value }
    {
        let before = replace(self, LevelHandle::of(Loose::of(movable(task))));
        if let Some(loose) = before.into_loose(alloc) {
            drop(loose.into_box());
        }
    }
}
