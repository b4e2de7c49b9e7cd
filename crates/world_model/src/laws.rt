//! What holds of each legal world. Each function does nothing: its contract is the law, and the
//! check proves it.
ghost use Rattle.world_model.specs.ClockLaws.{ClocksAgree, ClocksFit};
ghost use Rattle.world_model.specs.Laws.{FinishesAreLegal, PhasersAreFolded, PhasersAreLegal, PhasersAreOrdered};
ghost use Rattle.world_model.specs.ProgressLaws.{AbleIsComputed, NextsAreExpected, NobodyIsStuck};
ghost use Rattle.world_model.specs.ScopeLaws.{EndedRootsLeaveNobody, PhasersHeldAreFew, RegistrationsAreWithin, ShutsLeaveNobody};

/// The history of each phaser is legal.
pub fn phasers_are_legal()
    ensures { PhasersAreLegal }
{}

/// No wait passed a phase of a phaser before every signaller, registered then or later, had
/// signalled it.
pub fn phasers_are_ordered()
    ensures { PhasersAreOrdered }
{}

/// The values of a closed phase stay as they are, and each look saw the fold of all values that
/// were ever sent for the phase.
pub fn phasers_are_folded()
    ensures { PhasersAreFolded }
{}

/// The history of each finish is legal.
pub fn finishes_are_legal()
    ensures { FinishesAreLegal }
{}

/// A child gets no capability that its spawner lacks, and comes only to phasers that its spawner's
/// innermost finish encloses.
pub fn registrations_are_within()
    ensures { RegistrationsAreWithin }
{}

/// A task is never on more than 16 phasers; nor is a child that is being spawned, since it comes to
/// its spawner's alone.
pub fn phasers_held_are_few()
    ensures { PhasersHeldAreFew }
{}

/// If a finish is shut, each task inside it has ended, and nobody is left on a phaser that it
/// encloses.
pub fn shuts_leave_nobody()
    ensures { ShutsLeaveNobody }
{}

/// If the root has ended, each task has, and none is registered on any phaser.
pub fn ended_roots_leave_nobody()
    ensures { EndedRootsLeaveNobody }
{}

/// On a phaser, a task that goes on has ended as many turns as its clock was raised since the
/// phaser was made, and one more if it has passed in the turn under way.
pub fn clocks_agree()
    ensures { ClocksAgree }
{}

/// No clock passes the acts that all tasks may begin, 2^28 at most: a `u32` holds it.
pub fn clocks_fit()
    ensures { ClocksFit }
{}

/// Whether a task is able, as it is computed, is that some event of its own is accepted.
pub fn able_is_computed()
    ensures { AbleIsComputed }
{}

/// What continues the act of a task that hasn't ended is the task's own event. It is made or has to
/// wait, or is refused because another number stands, registrations are at the limit or the history
/// is full.
pub fn nexts_are_expected()
    ensures { NextsAreExpected }
{}

/// As long as some task hasn't ended, some task is able.
pub fn nobody_is_stuck()
    ensures { NobodyIsStuck }
{}
