//! What holds of each live world, and why. Each function does nothing: its contract is the law.
ghost use Rattle.live_world.specs.Counts.{CountsTell};
ghost use Rattle.live_world.specs.Laws.{NotAllAreParked, ParkedTasksWait};
ghost use Rattle.live_world.specs.Waits.{ShuttersWait, WaitersAreNotAble};

/// A finish may be shut exactly when its count of tasks that go on is 0.
pub fn counts_tell()
    ensures { CountsTell }
{}

/// A task whose next event has to wait isn't able.
pub fn waiters_are_not_able()
    ensures { WaitersAreNotAble }
{}

/// A task that is to shut a finish waits as long as a task in it goes on.
pub fn shutters_wait()
    ensures { ShuttersWait }
{}

/// Each task that is parked waits.
pub fn parked_tasks_wait()
    ensures { ParkedTasksWait }
{}

/// As long as the root goes on, some task isn't parked.
pub fn not_all_are_parked()
    ensures { NotAllAreParked }
{}
