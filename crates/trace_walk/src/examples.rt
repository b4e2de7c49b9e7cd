//! The worked examples: programs, and what their runs give, by rounds alone and by picks. Each
//! function does nothing: its contract says it, and the check computes it.
ghost use Rattle.trace_walk.specs.RefusalExamples.{ActsFullRun, FinishOpenRun, FinishesFullRun, HistoryFullInNext, NoFinishRun, NotRegisteredRun, OnePhaserOnlyRun, PhasersFullRun, TasksFullRun, UnbornChildDropped};
ghost use Rattle.trace_walk.specs.RunExamples.{BoundedProducer, CrossedSignals, CrossedSignalsByOne, CrossedSignalsRefused, NestedFinish, NestedFinishEvents, NothingToDo, OutsideScope, OwnerLeavesBeforeShut, TwoSenders, TwoSendersPicked};

/// Runs of several tasks, over phasers and finishes.
pub fn worked_runs()
    ensures nothing_to_do { NothingToDo }
    ensures outside_scope { OutsideScope }
    ensures two_senders { TwoSenders }
    ensures two_senders_picked { TwoSendersPicked }
    ensures nested_finish { NestedFinish }
    ensures nested_finish_events { NestedFinishEvents }
    ensures crossed_signals { CrossedSignals }
    ensures crossed_signals_by_one { CrossedSignalsByOne }
    ensures crossed_signals_refused { CrossedSignalsRefused }
    ensures bounded_producer { BoundedProducer }
    ensures owner_leaves_before_shut { OwnerLeavesBeforeShut }
{}

/// Limits that a run meets.
pub fn worked_limits()
    ensures limits_of_the_root_acts { ActsFullRun }
    ensures limits_of_the_root_tasks { TasksFullRun }
    ensures limits_of_the_root_finishes { FinishesFullRun }
    ensures limits_of_the_root_phasers { PhasersFullRun }
    ensures unborn_child_dropped { UnbornChildDropped }
    ensures history_full_in_next { HistoryFullInNext }
{}

/// Acts of the root that are refused.
pub fn worked_refused_acts()
    ensures refused_acts_of_the_root_end { FinishOpenRun }
    ensures refused_acts_of_the_root_shut { NoFinishRun }
    ensures refused_acts_of_the_root_single { OnePhaserOnlyRun }
    ensures refused_acts_of_the_root_send { NotRegisteredRun }
{}
