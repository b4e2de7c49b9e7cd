//! What C holds of a judge.
ghost use Rattle.std.specs.Prelude.{◌≡◌, None, Some, MatchOption};
ghost use Rattle.std.specs.declared.option.Option.{Option};
ghost use Rattle.std.specs.Coded.{coded_option};
ghost use Rattle.phaser_judge.specs.Courses.{Course};
ghost use Rattle.phaser_judge.specs.contracts.judge.Judge.{the_row as judge_row};
ghost use Rattle.phaser_c.specs.Held.{held};

use crate::handle::movable;
use crate::loose::Loose;
use phaser_judge::Judge;
use std::alloc::Global;
use std::marker::Model;
use std::mem::replace;
use std::ptr::null_mut;

/// A judge as C holds it: a pointer that is null while there is none. Contracts see its course as
/// `state`. What the pointer leads to is the library's alone.
#[repr(C)]
pub struct JudgeHandle {
    at: *mut u8,
    ghost state: { Option Course } by { coded_option judge_row.coded },
}

impl Model for JudgeHandle {
    ghost also_owns = { λ h. held judge_row h.at h.state };
}

impl JudgeHandle {
    /// A handle that holds no judge.
    fn closed() -> JudgeHandle
        ensures { result.state ≡ None }
    {
        JudgeHandle { at: null_mut() }
    }

    /// A handle that holds this judge.
    fn of(loose: Loose<Judge, Global>) -> JudgeHandle
        ensures { result.state ≡ Some loose.value }
    {
        let Loose { at, alloc: _ } = loose;
        JudgeHandle { at: at as *mut u8 }
    }

    /// What the handle held.
    fn into_loose(self, alloc: Global) -> Option<Loose<Judge, Global>>
        ensures { MatchOption result (self.state ≡ None) (λ l. self.state ≡ Some l.value) }
    {
        let JudgeHandle { at } = self;
        if at.is_null() {
            None
        } else {
            Some(Loose {
                at: at as *mut Judge,
                alloc,
            })
        }
    }

    /// Takes the judge out, and leaves the handle closed.
    pub(crate) fn take(&mut self, alloc: Global) -> Option<Box<Judge>>
        ensures taken { MatchOption result (self.old.state ≡ None) (λ b. self.old.state ≡ Some b.value) }
        ensures closed { self.new.state ≡ None }
    {
        match replace(self, JudgeHandle::closed()).into_loose(alloc) {
            None => None,
            Some(loose) => Some(loose.into_box()),
        }
    }

    /// Puts a judge in. One that was there is freed.
    pub(crate) fn put(&mut self, alloc: Global, judge: Box<Judge>)
        ensures { self.new.state ≡ Some judge.value }
    {
        let before = replace(self, JudgeHandle::of(Loose::of(movable(judge))));
        if let Some(loose) = before.into_loose(alloc) {
            drop(loose.into_box());
        }
    }
}
