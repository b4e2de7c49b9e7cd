//! What each event makes of what a task knows of itself. Each function does nothing: its contract is
//! the law, and the check proves it.
ghost use Rattle.task_standing.specs.AfterEvents.{EventsAreNoted, NotesStayTrue, PlansNameFew};
ghost use Rattle.task_standing.specs.Laws.{BeginsBegin, BirthsEndSpawns, FailuresEnd, LeavesLeave, LooksAreActs, MakingsHold, OpeningsOpen, OthersLeave, PassUnmarks, RefusalsEnd, RegistrationsRegister, RootsStartFresh, SendsAreActs, ShutsShut, SignalMarks, SinglesLeave, UnbornAreNamed};

/// An event of another task leaves all that a task knows as the history says it.
pub fn others_leave()
    ensures { OthersLeave }
{}

/// A task's own signal marks the phaser: the task is ahead there, and the signal is due no more.
pub fn signal_marks()
    ensures { SignalMarks }
{}

/// A task's own pass takes the mark off, and brings a turn to its next phaser.
pub fn pass_unmarks()
    ensures { PassUnmarks }
{}

/// A task's own claim of a single, and its report, leave what it knows.
pub fn singles_leave()
    ensures { SinglesLeave }
{}

/// A value that a task sends is an act more, of which nothing is left.
pub fn sends_are_acts()
    ensures { SendsAreActs }
{}

/// A look is an act more, of which nothing is left.
pub fn looks_are_acts()
    ensures { LooksAreActs }
{}

/// A task that leaves a phaser holds it no more.
pub fn leaves_leave()
    ensures { LeavesLeave }
{}

/// A task that opens a finish has it innermost: an act more, of which nothing is left.
pub fn openings_open()
    ensures { OpeningsOpen }
{}

/// A task that shuts a finish of its own has one open finish less.
pub fn shuts_shut()
    ensures { ShutsShut }
{}

/// With the birth of its child a task's spawn is made.
pub fn births_end_spawns()
    ensures { BirthsEndSpawns }
{}

/// A task that makes a phaser holds it last: an act more, of which nothing is left.
pub fn makings_hold()
    ensures { MakingsHold }
{}

/// A registration of its child brings a task's spawn to the next pair.
pub fn registrations_register()
    ensures { RegistrationsRegister }
{}

/// A task that begins an act has to make what the act's plan says.
pub fn begins_begin()
    ensures { BeginsBegin }
{}

/// A task whose act is refused ends.
pub fn refusals_end()
    ensures { RefusalsEnd }
{}

/// A task that gives up ends, if it named no child that was never born.
pub fn failures_end()
    ensures { FailuresEnd }
{}

/// The root before the first event knows what the history says.
pub fn roots_start_fresh()
    ensures { RootsStartFresh }
{}

/// If a task gives up, its plan says which child it named that was never born.
pub fn unborn_are_named()
    ensures { UnbornAreNamed }
{}

/// After any event but its end a task knows what the history says, if it doesn't give up beside a
/// child that was never born.
pub fn events_are_noted()
    ensures { EventsAreNoted }
{}

/// After any event a task's plan names no more pairs than its type holds, if it did so before.
pub fn plans_name_few()
    ensures { PlansNameFew }
{}

/// Who knows what the history says, and notes each event of its own, knows so until it ends or gives up.
pub fn notes_stay_true()
    ensures { NotesStayTrue }
{}
