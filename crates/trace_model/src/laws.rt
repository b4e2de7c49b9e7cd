//! What it means that a trace is explained, and that it is one of given parts, and worked examples.
//! Each function does nothing: its contract says it, and the check proves it.
ghost use Rattle.trace_model.specs.Examples.{NestedFinish, SentAndSeen, SmallestProjections, SmallestTrace};
ghost use Rattle.trace_model.specs.Laws.{ExplainedIsLegal, FaultlessIsExplained, FinishesTellTheirOwn, FirstFaultIsFirst, OthersHaveNone, PhasersTellTheirOwn, ProjectionIsPart, ProjectionsAreParts};

/// A trace is explained exactly if no place of it is at fault.
pub fn faultless_is_explained()
    ensures { FaultlessIsExplained }
{}

/// Before the first fault of a trace no entry is at fault.
pub fn first_fault_is_first()
    ensures { FirstFaultIsFirst }
{}

/// The events of an explained trace are a legal history of the world.
pub fn explained_is_legal()
    ensures { ExplainedIsLegal }
{}

/// A trace of given parts has exactly these as its projections, if no two are of one phaser, one
/// finish or one task's log.
pub fn projections_are_parts()
    ensures parts { ProjectionsAreParts }
    ensures others { OthersHaveNone }
    ensures part { ProjectionIsPart }
{}

/// The part of a phaser has entries of that phaser alone, and the part of a finish of that finish.
pub fn parts_have_owners()
    ensures phasers { PhasersTellTheirOwn }
    ensures finishes { FinishesTellTheirOwn }
{}

/// Traces that are explained, the first faults of changed ones, and what one has of each owner.
pub fn worked_traces()
    ensures smallest_trace { SmallestTrace }
    ensures smallest_projections { SmallestProjections }
    ensures nested_finish { NestedFinish }
    ensures sent_and_seen { SentAndSeen }
{}
