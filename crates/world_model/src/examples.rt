//! The worked examples: events that are handed to a world in turn, what each is answered, and what
//! is reported at the end. Each function does nothing: its contract says it, and the check
//! computes it.
ghost use Rattle.world_model.specs.FinishExamples.{NestedFinish, NestedFinishActors, NestedFinishTrace, NothingToDo, OutsideScopeExample, OwnerLeavesBeforeShut};
ghost use Rattle.world_model.specs.LimitExamples.{ActsFullExample, FinishOpenExample, FinishesFullExample, HistoryFullInNext, NoFinishExample, NotRegisteredExample, OnePhaserOnlyExample, PhasersFullExample, TasksFullExample, UnbornChildDropped};
ghost use Rattle.world_model.specs.MomentExamples.{AskedHeld, AskedIdle, AskedSpawning, AskedTurning, ClocksAfterTurn, NextOfSingle};
ghost use Rattle.world_model.specs.TurnExamples.{BoundedProducer, CrossedSignals, CrossedSignalsRefused, OneSingle, SmallestTrace, TwoSenders};

/// Finishes: who has to wait for whom, and who may be on which phaser.
pub fn worked_finishes()
    ensures nothing_to_do { NothingToDo }
    ensures outside_scope { OutsideScopeExample }
    ensures nested_finish { NestedFinish }
    ensures nested_finish_actors { NestedFinishActors }
    ensures nested_finish_trace { NestedFinishTrace }
    ensures owner_leaves_before_shut { OwnerLeavesBeforeShut }
{}

/// Turns over one phaser and over two.
pub fn worked_turns()
    ensures smallest_trace { SmallestTrace }
    ensures crossed_signals { CrossedSignals }
    ensures crossed_signals_refused { CrossedSignalsRefused }
    ensures two_senders { TwoSenders }
    ensures bounded_producer { BoundedProducer }
    ensures one_single { OneSingle }
{}

/// Limits that a task meets, acts that it is refused, and what it leaves behind then.
pub fn worked_limits()
    ensures limits_of_the_root_acts { ActsFullExample }
    ensures limits_of_the_root_tasks { TasksFullExample }
    ensures limits_of_the_root_finishes { FinishesFullExample }
    ensures limits_of_the_root_phasers { PhasersFullExample }
    ensures refused_acts_of_the_root_end { FinishOpenExample }
    ensures refused_acts_of_the_root_shut { NoFinishExample }
    ensures refused_acts_of_the_root_single { OnePhaserOnlyExample }
    ensures refused_acts_of_the_root_send { NotRegisteredExample }
    ensures unborn_child_dropped { UnbornChildDropped }
    ensures history_full_in_next { HistoryFullInNext }
{}

/// Single moments: what each of several events would be answered, what comes next, and what each
/// task is about.
pub fn worked_moments()
    ensures asked_idle { AskedIdle }
    ensures asked_turning { AskedTurning }
    ensures asked_spawning { AskedSpawning }
    ensures asked_held { AskedHeld }
    ensures next_of_single { NextOfSingle }
    ensures clocks_after_turn { ClocksAfterTurn }
{}
