//! What each event makes of what a child knows before its birth, and its parent beside it. Each
//! function does nothing: its contract is the law, and the check proves it.
ghost use Rattle.task_standing.specs.Children.{ChildrenAreBorn, ChildrenJoin, ChildrenLeave, ChildrenStartFresh, FailuresEndWith, OthersLeaveWith, ParentsGoOnAlone, UnbornStay};

/// A child that was just named holds nothing.
pub fn children_start_fresh()
    ensures { ChildrenStartFresh }
{}

/// With its registration a child holds what its parent hands it.
pub fn children_join()
    ensures { ChildrenJoin }
{}

/// From its birth on a child knows what the history says.
pub fn children_are_born()
    ensures { ChildrenAreBorn }
{}

/// An event of any other task than its parent leaves what an unborn child knows.
pub fn unborn_stay()
    ensures { UnbornStay }
{}

/// A task that gives up beside a child that was never born ends, and the child leaves its phasers first.
pub fn failures_end_with()
    ensures { FailuresEndWith }
{}

/// A child that was never born leaves a phaser, and all others are left to it.
pub fn children_leave()
    ensures { ChildrenLeave }
{}

/// An event of another task leaves what a task knows beside a child that was never born.
pub fn others_leave_with()
    ensures { OthersLeaveWith }
{}

/// Once a child that was never born holds nothing, its parent goes on alone.
pub fn parents_go_on_alone()
    ensures { ParentsGoOnAlone }
{}
