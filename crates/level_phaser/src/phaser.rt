//! A phaser whose tasks all stand level.
ghost use Rattle.std.specs.Prelude.{◌≡◌, ◌+◌, ◌-◌, ◌≤◌, [], true, IfOk, IfErr, IfSome, IfNone, IsTrue, IsFalse, length, vec_len};
ghost use Rattle.phase_modes.specs.Limits.{is_between};
ghost use Rattle.phase_model.specs.Laws.{IsLegal};
ghost use Rattle.phase_model.specs.Replies.{reply};
ghost use Rattle.phase_model.specs.Tasks.{is_live};
ghost use Rattle.level_phaser.specs.LevelPhasers.{IsReady, IsFull};
ghost use Rattle.level_phaser.specs.RoundLaws.{is_among};
ghost use Rattle.level_phaser.specs.inner.Stories.{Joined, Turned};

use crate::round::make_round;
use crate::state::LevelState;
use phase_model::{Bound, LongLook, Ops};
use phase_modes::{Mode, Refusal};
use phaser_core::LongPhaser;
use std::alloc::Global;

/// A round of 256 tasks, and a leave of each, take fewer events than this.
const ROOM: u64 = 1024;

/// So many tasks at once.
const MOST_TASKS: usize = 256;

/// A phaser all of whose tasks are `SigWait` and stand level, and these tasks.
#[derive(Drop)]
pub struct LevelPhaser {
    pub phaser: LongPhaser,
    pub tasks: Vec<u64>,
    ghost few: { vec_len tasks ≤ 256 },
    ghost regs: { is_between 1 phaser.story.limits.regs 256 ≡ true },
}

impl LevelPhaser {
    /// A phaser that nobody has made yet, with the operators of its accumulators and a bound as
    /// `LongPhaser::new` has them. All memory that it will ever need is taken here; `Memory` if
    /// that is refused.
    pub fn new(alloc: Global, ops: Ops, bound: Bound) -> Result<LevelPhaser, Refusal>
        ensures empty { IfOk result (λ d. (vec_len d.tasks ≡ 0) × (d.phaser.story.past ≡ [])) }
        ensures ready { IfOk result (λ d. IsReady 0 d.tasks.items d.phaser.story) }
        ensures memory { IfErr result (λ r. r ≡ Refusal.Memory) }
    {
        let Ok(tasks) = Vec::with_capacity(alloc, MOST_TASKS) else {
            return Err(Refusal::Memory);
        };
        let phaser = LongPhaser::new(alloc, ops, bound)?;
        Ok(LevelPhaser { phaser, tasks })
    }
}

/// The first task.
fn make_first(phaser: &mut LongPhaser) -> Option<u64>
    requires { IsReady 0 [] phaser.old.story × (phaser.old.story.past ≡ []) }
    ensures some { IfSome result (λ t.
        Joined 0 t [] phaser.old.story phaser.new.story × IsLegal phaser.new.story
        × (phaser.new.next ≡ t + 1)) }
    ensures none { IfNone result (phaser.new ≡ phaser.old) }
    ensures limits { phaser.new.story.limits ≡ phaser.old.story.limits }
{
    let Ok(task) = phaser.make(Mode::SigWait) else {
        return None;
    };
    // So the history is legal.
    let _ = phaser.history();
    Some(task)
}

/// One more task, by one of these.
fn register_by(phaser: &mut LongPhaser, parent: u64, _tasks: &[u64], _phase: u64) -> Option<u64>
    requires { IsReady _phase _tasks.now phaser.old.story × (is_among parent _tasks.now ≡ true) }
    ensures some { IfSome result (λ t.
        Joined _phase t _tasks.now phaser.old.story phaser.new.story × IsLegal phaser.new.story
        × (phaser.new.next ≡ t + 1)) }
    ensures none { IfNone result (phaser.new ≡ phaser.old) }
    ensures limits { phaser.new.story.limits ≡ phaser.old.story.limits }
{
    let Ok(task) = phaser.register(parent, Mode::SigWait) else {
        return None;
    };
    // So the history is legal.
    let _ = phaser.history();
    Some(task)
}

/// One more task, that stands level with these.
fn register(phaser: &mut LongPhaser, tasks: &[u64], phase: u64) -> Option<u64>
    requires { IsReady phase tasks.now phaser.old.story }
    ensures some { IfSome result (λ t.
        Joined phase t tasks.now phaser.old.story phaser.new.story × IsLegal phaser.new.story
        × (phaser.new.next ≡ t + 1)) }
    ensures none { IfNone result (phaser.new ≡ phaser.old) }
    ensures limits { phaser.new.story.limits ≡ phaser.old.story.limits }
{
    if let Some(parent) = tasks.first() {
        return register_by(phaser, *parent, tasks, phase);
    }
    if phase != 0 || phaser.history().len() > 0 {
        return None;
    }
    make_first(phaser)
}

/// A round of all tasks, these. Whether it was made: it isn't if there may be no room for it.
fn turn_all(phaser: &mut LongPhaser, tasks: &[u64], phase: u64) -> bool
    requires { IsReady phase tasks.now phaser.old.story × (length tasks.now ≤ 256) }
    ensures made { IsTrue result → Turned phase tasks.now phaser.old.story phaser.new.story }
    ensures full { IsFalse result → IsFull phaser.old.story }
    ensures limits { phaser.new.story.limits ≡ phaser.old.story.limits }
{
    let told = phaser.history();
    if told.limits().history - told.len() < ROOM {
        return false;
    }
    let course = make_round(phaser, &[], tasks, phase);
    // So the history is legal.
    let _ = phaser.history();
    course.is_whole
}

impl LevelState for LevelPhaser {
    ghost events = { λ d. d.phaser.story.past };

    ghost registered = { λ t d. is_live t d.phaser.story.past };

    ghost count = { λ d. vec_len d.tasks };

    ghost width = { λ d. length d.phaser.story.terms.ops };

    ghost tasks = { λ d. d.tasks.items };

    ghost newest = { λ d. d.phaser.next - 1 };

    ghost replies = { λ d call. reply d.phaser.story call };

    ghost ready = { λ phase d. IsReady phase d.tasks.items d.phaser.story };

    ghost full = { λ d. IsFull d.phaser.story };

    fn count(&self) -> u64 {
        self.tasks.len() as u64
    }

    fn width(&self) -> u64 {
        self.phaser.history().ops().len() as u64
    }

    fn phase(&self) -> u64 {
        let Some(first) = self.tasks.get(0) else {
            return 0;
        };
        match self.phaser.registration(*first) {
            Some(reg) => reg.phase,
            None => 0,
        }
    }

    fn task_at(&self, place: u64, phase: u64) -> Option<u64> {
        let _ = phase;
        // So the accumulators are few.
        let _ = self.width();
        let Some(task) = self.tasks.get(place as usize) else {
            return None;
        };
        Some(*task)
    }

    fn make_round(&mut self, phase: u64) -> bool {
        let LevelPhaser { phaser, tasks } = self;
        turn_all(phaser, tasks.as_slice(), phase)
    }

    fn join(&mut self, phase: u64) -> Option<u64> {
        let LevelPhaser { phaser, tasks } = self;
        if tasks.len() >= MOST_TASKS || tasks.reserve(1).is_err() {
            return None;
        }
        let task = register(phaser, tasks.as_slice(), phase)?;
        tasks.push_reserved(task);
        Some(task)
    }

    fn send(&mut self, task: u64, accumulator: u8, value: i32, phase: u64) -> Result<(), Refusal> {
        let _ = phase;
        let outcome = self.phaser.send(task, accumulator, value);
        // So the history is legal.
        let _ = self.phaser.history();
        match outcome {
            Ok(()) => Ok(()),
            Err(why) => Err(why),
        }
    }

    fn look(&mut self, task: u64, accumulator: u8, phase: u64) -> Result<LongLook, Refusal> {
        let _ = phase;
        let seen = self.phaser.look(task, accumulator);
        // So the history is legal.
        let _ = self.phaser.history();
        seen
    }

    fn leave(&mut self, task: u64, phase: u64) -> bool {
        let _ = phase;
        let outcome = self.phaser.leave(task);
        // So the history is legal.
        let _ = self.phaser.history();
        match outcome {
            Ok(()) => {
                self.tasks.retain(|other| *other != task);
                true
            }
            Err(_) => false,
        }
    }
}
