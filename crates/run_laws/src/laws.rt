//! What holds of each two whole runs of the same bodies in which nobody is refused or gives up, and
//! numbers are drawn by the same rule. Each function does nothing: its contract is the law, and the
//! check proves it.
ghost use Rattle.run_laws.specs.Programs.{FollowersGoByScripts, ProgramsComeToTheSame, RootsDrawInOrder, TextsForetell, TextsTellWhoDraws};
ghost use Rattle.run_laws.specs.Determinacy.{HistoriesAreBeginnings, RoomIsAllLuck, RunsComeToTheSame, TasksDoTheSame};
ghost use Rattle.run_laws.specs.Least.{LeastHangsOnMemoryAlone, LeastIsInOrder};
ghost use Rattle.run_laws.specs.Memory.{HistoriesAlwaysFit, HistoriesAreNoLonger, MemoryIsAllLuck};
ghost use Rattle.run_laws.specs.OneRun.{OneRunTellsAll};
ghost use Rattle.run_laws.specs.Schedules.{OrderlySchedulesEnd, OrderlySchedulesForetell, RoomyTextsAreOrderly, SchedulesComeToTheSame, SchedulesWithRoomComeToTheSame};

use trace_walk::Goes;

/// Each task does the same in both, and hears and sees the same; but for the task that runs a single.
pub fn tasks_do_the_same<B: Goes>()
    ensures { TasksDoTheSame B.next }
{}

/// Both have the same report.
pub fn runs_come_to_the_same<B: Goes>()
    ensures { RunsComeToTheSame B.next }
{}

/// Beside one such run: in each history of the same bodies, by the same rule, in which nobody was
/// refused up to now, whole or not, each task has done a first part of what it does in that run.
pub fn histories_are_beginnings<B: Goes>()
    ensures { HistoriesAreBeginnings B.next }
{}

/// Beside one such run: in another history of the same bodies, by the same rule, in which nobody is
/// refused or gives up for want of room or memory, nobody is refused or gives up at all, and if its
/// root has ended it has the same report.
pub fn room_is_all_luck<B: Goes>()
    ensures { RoomIsAllLuck B.next }
{}

/// Beside one such run: the first event of another history of the same bodies, by the same rule, by
/// which somebody is refused or gives up refuses no act, and isn't for want of room in a phaser's
/// history.
pub fn histories_always_fit<B: Goes>()
    ensures { HistoriesAlwaysFit B.next }
{}

/// Beside one such run: no other history of the same bodies, by the same rule, in which nobody was
/// refused up to now, has more events.
pub fn histories_are_no_longer<B: Goes>()
    ensures { HistoriesAreNoLonger B.next }
{}

/// Beside one such run with no more registrations on a phaser in all than may stand at a time: in
/// another history of the same bodies, by the same rule, in which nobody gives up for want of
/// memory, or for full registrations if they aren't full, nobody is refused or gives up at all,
/// and if its root has ended it has the same report.
pub fn memory_is_all_luck<B: Goes>()
    ensures { MemoryIsAllLuck B.next }
{}

/// Beside one such run in which each kind of number is drawn by one task alone, in order: in
/// another history of the same bodies in which nobody was refused up to now, and the least numbers
/// were drawn, they were drawn in order too.
pub fn least_is_in_order<B: Goes>()
    ensures { LeastIsInOrder B.next }
{}

/// So the law that memory is all that luck decides holds of histories in which the least numbers
/// are drawn, and no rule needs to be named.
pub fn least_hangs_on_memory_alone<B: Goes>()
    ensures { LeastHangsOnMemoryAlone B.next }
{}

/// A legal history that follows a program goes by the program's bodies.
pub fn followers_go_by_scripts()
    ensures { FollowersGoByScripts }
{}

/// In two such runs of a program each task does the same, and both have the same report.
pub fn programs_come_to_the_same()
    ensures { ProgramsComeToTheSame }
{}

/// If nobody is refused, and the root alone draws numbers, and always the least that aren't in
/// use, each kind is drawn in order.
pub fn roots_draw_in_order()
    ensures { RootsDrawInOrder }
{}

/// If nobody is refused in a history of a program whose text says that the root alone draws
/// numbers, it does.
pub fn texts_tell_who_draws()
    ensures { TextsTellWhoDraws }
{}

/// Of a program whose text says that the root alone draws numbers: any two whole runs in which
/// nobody is refused, and the least numbers are drawn, have the same report, and each task does
/// the same in both.
pub fn texts_foretell()
    ensures { TextsForetell }
{}

/// One whole run of a program, in which nobody is refused, each kind of number is drawn by one task
/// alone, in order, and no phaser has more registrations in all than may stand at a time, tells all:
/// in each run that has memory nobody is refused or gives up, and if its root ends it gives the
/// same report.
pub fn one_run_tells_all()
    ensures { OneRunTellsAll }
{}

/// Of a program whose text says that the root alone draws numbers: any two runs by picks in which
/// nobody is refused, and the root ends, have the same report.
pub fn schedules_come_to_the_same()
    ensures { SchedulesComeToTheSame }
{}

/// Beside one such run by picks: in each other in which nobody is refused or gives up for want of
/// room or memory, nobody is refused or gives up at all, and if its root ends it gives the same
/// report.
pub fn schedules_with_room_come_to_the_same()
    ensures { SchedulesWithRoomComeToTheSame }
{}

/// Of any program: one run by picks in which nobody is refused and the root ends, each kind of
/// number is drawn by one task alone, in order, and no phaser has more registrations in all than
/// may stand at a time, foretells each other one: nobody is refused or gives up in it, and if its
/// root ends it has the same report.
pub fn orderly_schedules_foretell()
    ensures { OrderlySchedulesForetell }
{}

/// And under limits that fit its root ends, within as many rounds as the one run has events.
pub fn orderly_schedules_end()
    ensures { OrderlySchedulesEnd }
{}

/// If the text says that the root alone draws numbers, the order needn't be asked.
pub fn roomy_texts_are_orderly()
    ensures { RoomyTextsAreOrderly }
{}
