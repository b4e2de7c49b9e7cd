//! The folds of a phase: whoever ends a round writes what each accumulator holds then, in a word of
//! its own.
ghost use Rattle.std.specs.Prelude.{◌≡◌, ◌+◌, ◌<◌, ℕ, ℤ, true, Some, Ok};
ghost use Rattle.phase_model.specs.declared.call.Call.TheVariants.{Look as look};
ghost use Rattle.phase_model.specs.declared.op.Look.{Look as LookOf};
ghost use Rattle.phase_model.specs.Answers.{look_result};
ghost use Rattle.level_phaser.specs.Changes.{IsKept};
ghost use Rattle.level_phaser.specs.inner.Steps.{IsSized};
ghost use Rattle.level_phaser.specs.inner.Folds.{fold_in};
ghost use Rattle.level_phaser.specs.inner.Foldings.{Folding, HasFolded, HasOnly};

use crate::plays::Fold;
use crate::state::LevelState;
use crate::view::{LevelSeat, LevelShared};
use phase_model::LongLook;
use phase_modes::Refusal;

/// From here on each accumulator has a word, in a line of memory that nobody else writes. It says
/// what the accumulator holds, if that is known.
pub(crate) const FOLDS: usize = 24;

/// The word of a fold has a value from here on: so the least is 2.
const LEAST: u64 = 1 << 63;

/// What the word of a fold stands for, if for anything.
pub(crate) fn fold_of(word: u64) -> Option<LongLook>
    ensures { result ≡ fold_in word }
{
    if word == 0 {
        return None;
    }
    if word == 1 {
        return Some(LongLook::Nothing);
    }
    let value = (word - 2).wrapping_add(LEAST).cast_signed();
    Some(LongLook::Value(value as i128))
}

/// The word that stands for a value, if there is one.
fn guess_of(value: i128) -> u64 {
    let Ok(short) = i64::try_from(value) else {
        return 0;
    };
    short.cast_unsigned().wrapping_sub(LEAST).wrapping_add(2)
}

/// The word of a fold that stands for what was seen: 0 if none does.
fn fold_word(seen: Result<LongLook, Refusal>) -> u64
    ensures { (l : LookOf ℤ) → fold_in result ≡ Some l → seen ≡ Ok l }
{
    let Ok(look) = seen else {
        return 0;
    };
    let LongLook::Value(value) = look else {
        return 1;
    };
    let word = guess_of(value);
    if let Some(LongLook::Value(same)) = fold_of(word) {
        if same == value {
            return word;
        }
    }
    0
}

/// The word of a fold that stands for what the first task is answered, and so all others: 0 if there
/// is none.
fn ask_first<S: LevelState>(value: &mut S, accumulator: u8, phase: u64) -> u64
    requires ready { S.ready phase value.old }
    ensures kept { IsKept S.events S.registered S.count S.width value.old value.new }
    ensures ready { S.ready phase value.new }
    ensures fold { (l : LookOf ℤ) → fold_in result ≡ Some l → (t : ℕ) → S.registered t value.old ≡ true
        → look_result (S.replies value.old (look t accumulator)) ≡ Ok l }
{
    let Some(task) = value.task_at(0, phase) else {
        return 0;
    };
    fold_word(value.look(task, accumulator, phase))
}

/// What this accumulator holds now is written in the word of its fold.
fn write_fold<S: LevelState>(
    shared: &LevelShared<S>,
    seat: &mut LevelSeat<S>,
    phase: u64,
    accumulator: u8,
    _width: u64,
)
    requires table { (seat.old.table_id ≡ shared.now.table_id) × IsSized shared.now.table_id }
    requires few { accumulator < 4 }
    requires folds { Folding S.events S.registered S.count S.width S.replies S.ready _width accumulator phase seat.old.me }
    ensures same { seat.new.table_id ≡ seat.old.table_id }
    ensures folds { Folding S.events S.registered S.count S.width S.replies S.ready _width (accumulator + 1) phase seat.new.me
        × HasOnly seat.old.me.0 seat.new.me.0 }
{
    let word = ask_first(seat.slot_mut(shared, 0), accumulator, phase);
    shared.store::<Fold>(seat, FOLDS + accumulator as usize, word);
}

/// The words of all folds are written.
pub(crate) fn write_folds<S: LevelState>(
    shared: &LevelShared<S>,
    seat: &mut LevelSeat<S>,
    phase: u64,
)
    requires table { (seat.old.table_id ≡ shared.now.table_id) × IsSized shared.now.table_id }
    requires folds { (w : ℕ) × Folding S.events S.registered S.count S.width S.replies S.ready w 0 phase seat.old.me }
    ensures same { seat.new.table_id ≡ seat.old.table_id }
    ensures folds { HasFolded S.events S.registered S.count S.width S.replies S.ready phase seat.new.me
        × HasOnly seat.old.me.0 seat.new.me.0 }
{
    let width = seat.slot_mut(shared, 0).width();
    for accumulator in 0..width {
        write_fold(shared, seat, phase, accumulator as u8, width);
    }
}
