//! What each step on the table tells.
ghost use Rattle.level_phaser.specs.inner.Plays.{came, looked, looked_shut, taken, opened, seized, ended, claimed, joined, left, raised, released, heeded, shown, showed, found, folded, fetched};
ghost use Rattle.level_phaser.specs.inner.Steps.{first_of, others_of, rest_of};
ghost use Rattle.level_phaser.specs.Views.{note_of, told};
ghost use Rattle.level_phaser.specs.inner.Board.{spent};

use crate::state::LevelState;
use crate::view::SeatView;
use atomic_table::{Join as Merge, Play, Split};

pub(crate) struct Come;

impl<S: LevelState> Play<S, SeatView<S>> for Come {
    ghost then = { came S.events S.registered S.width S.newest S.replies S.ready };
}

pub(crate) struct Look;

impl<S: LevelState> Play<S, SeatView<S>> for Look {
    ghost then = { looked S.events S.registered S.width S.newest S.replies S.ready };
}

/// Who waits reads whether the table was closed.
pub(crate) struct LookShut;

impl<S: LevelState> Play<S, SeatView<S>> for LookShut {
    ghost then = { looked_shut S.events S.registered S.width S.newest S.replies S.ready };
}

/// Who made the table takes the value that nobody uses.
pub(crate) struct Take;

impl<S: LevelState> Play<S, SeatView<S>> for Take {
    ghost then = { taken };
}

/// And opens it with another.
pub(crate) struct Open;

impl<S: LevelState> Play<S, SeatView<S>> for Open {
    ghost then = { opened S.events S.width S.tasks S.ready };
}

/// The keeper takes the value.
pub(crate) struct Seize;

impl<S: LevelState> Play<S, SeatView<S>> for Seize {
    ghost then = { seized S.events S.count S.ready };
}

/// And says that the table is closed.
pub(crate) struct Shut;

impl<S: LevelState> Play<S, SeatView<S>> for Shut {
    ghost then = { raised S.events S.registered S.width S.newest S.replies S.ready };
}

pub(crate) struct End;

impl<S: LevelState> Play<S, SeatView<S>> for End {
    ghost then = { ended S.events S.registered S.width S.newest S.replies S.ready };
}

/// A row's word says what the task sends.
pub(crate) struct Put;

impl<S: LevelState> Play<S, SeatView<S>> for Put {
    ghost then = { showed S.events S.registered S.width S.newest S.replies S.ready };
}

/// The last finds a row's word.
pub(crate) struct Find;

impl<S: LevelState> Play<S, SeatView<S>> for Find {
    ghost then = { found S.events S.registered S.width S.newest S.replies S.ready };
}

/// The last writes a fold.
pub(crate) struct Fold;

impl<S: LevelState> Play<S, SeatView<S>> for Fold {
    ghost then = { folded S.events S.registered S.width S.newest S.replies S.ready };
}

/// Who stands reads one.
pub(crate) struct Fetch;

impl<S: LevelState> Play<S, SeatView<S>> for Fetch {
    ghost then = { fetched S.events S.registered S.width S.newest S.replies S.ready };
}

pub(crate) struct Claim;

impl<S: LevelState> Play<S, SeatView<S>> for Claim {
    ghost then = { claimed S.events S.registered S.width S.newest S.replies S.ready };
}

pub(crate) struct Release;

impl<S: LevelState> Play<S, SeatView<S>> for Release {
    ghost then = { released S.events S.registered S.width S.newest S.replies S.ready };
}

pub(crate) struct Show;

impl<S: LevelState> Play<S, SeatView<S>> for Show {
    ghost then = { shown S.events S.registered S.width S.newest S.replies S.ready };
}

pub(crate) struct Join;

impl<S: LevelState> Play<S, SeatView<S>> for Join {
    ghost then = { joined S.events S.registered S.width S.newest S.replies S.ready };
}

pub(crate) struct Leave;

impl<S: LevelState> Play<S, SeatView<S>> for Leave {
    ghost then = { left S.events S.registered S.width S.newest S.replies S.ready };
}

pub(crate) struct Raise;

impl<S: LevelState> Play<S, SeatView<S>> for Raise {
    ghost then = { raised S.events S.registered S.width S.newest S.replies S.ready };
}

/// The first of a seat's tasks gets a seat of its own.
pub(crate) struct Cut;

impl<S: LevelState> Split<SeatView<S>> for Cut {
    ghost left = { others_of };

    ghost right = { first_of };
}

/// The same, of all tasks of a table.
pub(crate) struct Deal;

impl<S: LevelState> Split<SeatView<S>> for Deal {
    ghost left = { rest_of };

    ghost right = { first_of };
}

/// A seat tells how far it has come.
pub(crate) struct Note;

impl<S: LevelState> Split<SeatView<S>> for Note {
    ghost left = { λ v. v };

    ghost right = { note_of };
}

/// Another hears it.
pub(crate) struct Hear;

impl<S: LevelState> Merge<SeatView<S>> for Hear {
    ghost both = { told };

    ghost spent = { spent };
}

pub(crate) struct Heed;

impl<S: LevelState> Play<S, SeatView<S>> for Heed {
    ghost then = { heeded S.events S.registered S.width S.newest S.replies S.ready };
}
