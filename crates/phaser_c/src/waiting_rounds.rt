//! A round in one call: for the last of those who come, once all others have.
ghost use Rattle.std.specs.Prelude.{◌≡◌, true};
ghost use Rattle.phaser_c.specs.Answers.{number_of_answer};
ghost use Rattle.phaser_c.specs.Waiting.{told_at, IsHeldAfter};
ghost use Rattle.level_phaser.specs.Rounds.{round_of, is_level, are_level};
ghost use Rattle.phaser_c.specs.Rounds.{level_of, answer_of_level, level_told, round_at, answer_of_course, answer_of_round, made_told, IsRound};

use crate::answer::ExportAnswer;
use crate::waiting::Waiting;
use crate::waiting_handle::WaitingHandle;
use level_phaser::{GivenSend, RoundCourse, make_round};
use long_locks::LongCell;
use phase_modes::{LongReg, Mode, Refusal};
use phaser_core::{LongPhaser, LongTask, Phase};
use std::alloc::Global;

/// How many sends, and how many tasks, one round may have.
const MOST_SENDS: usize = 65_536;

const MOST_TASKS: usize = 256;

/// Whether a task that is registered so stands level in this phase.
fn is_level(phase: Phase, reg: Option<LongReg>) -> bool
    ensures { result ≡ is_level phase reg }
{
    match reg {
        Some(reg) => reg.mode == Mode::SigWait && reg.phase == phase && !reg.ahead,
        None => false,
    }
}

/// Whether each of these tasks stands level in this phase.
fn are_level(state: &LongPhaser, tasks: &[LongTask], phase: Phase) -> bool
    ensures { result ≡ are_level phase state.now.story tasks.now }
{
    tasks
        .iter()
        .all(|task| is_level(phase, state.registration(*task)))
}

impl Waiting {
    /// The phase in which all these tasks stand level, if they do and nobody is parked.
    pub(crate) fn level_of(&self, tasks: &[LongTask]) -> Option<Phase>
        ensures { result ≡ level_of tasks.now self.now.cell }
    {
        let LongCell { state, parked } = &self.cell;
        let first = tasks.first()?;
        let phase = state.registration(*first)?.phase;
        if parked.len() == 0 && are_level(state, tasks, phase) {
            Some(phase)
        } else {
            None
        }
    }

    /// A round, if nobody is parked.
    fn round(&mut self, sends: &[GivenSend], tasks: &[LongTask], phase: Phase) -> RoundCourse
        ensures calls { round_of self.new.cell.state.story result ≡ round_at phase sends.now tasks.now self.old.cell }
        ensures made { IsRound phase sends.now tasks.now self.old.cell self.new.cell }
    {
        let Waiting { cell, freed: _ } = self;
        let LongCell { state, parked } = cell;
        if parked.len() > 0 || sends.len() > MOST_SENDS || tasks.len() > MOST_TASKS {
            return RoundCourse {
                made: 0,
                is_whole: false,
            };
        }
        let course = make_round(state, sends, tasks, phase);
        // So the history is legal, and phases are ordered in it.
        let _ = state.history();
        course
    }
}

/// What is answered to a round that went so.
fn answer_to(course: RoundCourse) -> ExportAnswer
    ensures { result ≡ answer_of_course course }
{
    if course.is_whole {
        ExportAnswer::Done
    } else {
        ExportAnswer::Refused(Refusal::NotNow)
    }
}

/// Whether all these tasks stand level: each is registered as `SIG_WAIT`, in the same phase, and
/// hasn't signalled it; and nobody is parked. The phase is told if they do, and nothing is changed.
#[unsafe(no_mangle)]
pub extern "C" fn phaser_c_waiting_level(
    alloc: Global,
    phaser: &mut WaitingHandle,
    tasks: &[u64],
    phase: &mut u64,
) -> u32
    ensures answer { result ≡ number_of_answer (answer_of_level (told_at true phaser.old.state (level_of tasks.now))) }
    ensures phase { phase.new ≡ level_told phase.old (told_at true phaser.old.state (level_of tasks.now)) }
    ensures kept { phaser.new.state ≡ phaser.old.state }
{
    let Some(waiting) = phaser.take(alloc) else {
        return ExportAnswer::Closed.number();
    };
    let level = waiting.level_of(tasks);
    phaser.put(alloc, waiting);
    match level {
        Some(found) => {
            *phase = found;
            ExportAnswer::Done.number()
        }
        None => ExportAnswer::Refused(Refusal::NotNow).number(),
    }
}

/// The round of this phase: what was sent, a signal of each task but the first, a signal and a pass of
/// the first, and a pass of each other; until one of these calls isn't answered as in a round. It is
/// told how many calls were made.
#[unsafe(no_mangle)]
pub extern "C" fn phaser_c_waiting_round(
    alloc: Global,
    phaser: &mut WaitingHandle,
    sends: &[GivenSend],
    tasks: &[u64],
    phase: u64,
    made: &mut usize,
) -> u32
    ensures answer { result ≡ number_of_answer (answer_of_round
        (told_at true phaser.old.state (round_at phase sends.now tasks.now))) }
    ensures made { made.new ≡ made_told made.old (told_at true phaser.old.state (round_at phase sends.now tasks.now)) }
    ensures calls { IsHeldAfter (IsRound phase sends.now tasks.now) phaser.old.state phaser.new.state }
{
    let Some(mut waiting) = phaser.take(alloc) else {
        return ExportAnswer::Closed.number();
    };
    let course = waiting.round(sends, tasks, phase);
    phaser.put(alloc, waiting);
    *made = course.made as usize;
    answer_to(course).number()
}
