//! What one thread does: its task takes a turn, or one in each of many phases.
ghost use Rattle.std.specs.Prelude.{◌≡◌, [], true, IfOk};
ghost use Rattle.phase_modes.specs.Mode.{can_wait};
ghost use Rattle.phase_model.specs.Phases.{IsClosed};
ghost use Rattle.phase_model.specs.Tasks.{has_mode};
ghost use Rattle.long_locks.specs.Told.{IfPassed, HasLooked};
ghost use Rattle.example_threads.specs.Turns.{IsGood};

use long_locks::{Front, LongLock, Naming, Out, PassAnswer, SignalAnswer};
use phase_model::{LongLook, Look};
use phase_modes::Refusal;
use phaser_core::{LongTask, Phase};
use std::alloc::Global;
use std::sync::Wait;
use std::thread::Parker;

/// What the task sends in the phase.
fn change(task: LongTask, phase: Phase) -> i32 {
    (phase % 1_000) as i32 + (task % 4) as i32
}

/// The sum of what the tasks 0 to 3 send.
fn sum_of(phase: Phase) -> i128 {
    4 * i128::from(phase % 1_000) + 6
}

/// A task that its thread keeps, and what it has seen of the phaser. While the task is parked, the
/// thread's parker is the item that stands for it: whose call frees the task wakes the thread by it.
pub struct Player<'a, 'p, J: Naming, R: Wait> {
    rt: &'a R,
    lock: &'a LongLock<J, &'p Parker>,
    pub task: LongTask,
    parker: &'p Parker,
    pub front: Front<J>,
    out: Out<&'p Parker>,
    ghost awake: { out ≡ [] },
    ghost waiter: { has_mode can_wait task front ≡ true },
}

/// What came of a turn: the phase that was passed, and what was seen then, each with what the task
/// had seen of the phaser.
#[derive(Drop)]
pub struct Turn<J: Naming> {
    pub front: Front<J>,
    pub phase: Phase,
    pub later: Front<J>,
    pub seen: LongLook,
}

/// Wakes the threads of those whom a call has freed.
fn wake(out: &mut Out<&Parker>)
    ensures { out.new ≡ [] }
{
    while let Some(parker) = out.take() {
        parker.unpark();
    }
}

impl<'a, 'p, J: Naming, R: Wait> Player<'a, 'p, J, R> {
    /// A task that can wait, as its thread has seen.
    pub fn new(
        rt: &'a R,
        alloc: Global,
        lock: &'a LongLock<J, &'p Parker>,
        task: LongTask,
        parker: &'p Parker,
        front: Front<J>,
    ) -> Result<Player<'a, 'p, J, R>, Refusal>
        requires { has_mode can_wait task front ≡ true }
        ensures { IfOk result (λ p. (p.task ≡ task) × (p.front ≡ front)) }
    {
        let out = Out::new(alloc)?;
        Ok(Player {
            rt,
            lock,
            task,
            parker,
            front,
            out,
        })
    }

    /// The task sends its number.
    fn send(&mut self, number: i32) -> Result<(), Refusal> {
        let front = &mut self.front;
        let answer = self.lock.lock(self.rt).send(front, self.task, 0, number);
        front.is_legal();
        answer
    }

    /// The task signals: at a barrier the bound never holds it.
    fn signal(&mut self) -> Result<(), Refusal> {
        let answer = self.lock.lock(self.rt).signal(
            &mut self.front,
            &mut self.out,
            self.task,
            None,
            self.parker,
        );
        self.front.is_legal();
        wake(&mut self.out);
        match answer {
            SignalAnswer::Signalled(_) => Ok(()),
            SignalAnswer::Parked => Err(Refusal::NotNow),
            SignalAnswer::Refused(_, refusal) => Err(refusal),
        }
    }

    /// The task asks to end its turn.
    fn ask(&mut self) -> PassAnswer<&'p Parker, Phase>
        ensures closed { IfPassed result (λ p. IsClosed p self.new.front) }
    {
        let answer = self
            .lock
            .lock(self.rt)
            .pass(&mut self.front, &mut self.out, self.task, self.parker);
        self.front.is_legal();
        wake(&mut self.out);
        answer
    }

    /// The task ends its turn: if it is parked the thread sleeps until the task is freed, and then
    /// asks again. The phase of the turn, which is closed.
    fn pass(&mut self) -> Result<Phase, Refusal>
        ensures closed { IfOk result (λ p. IsClosed p self.new.front) }
    {
        for _ in self.rt.forever() {
            match self.ask() {
                PassAnswer::Passed(_, phase) => return Ok(phase),
                PassAnswer::Parked => self.parker.park(self.rt),
                PassAnswer::Claimed(_, _) => return Err(Refusal::NotNow),
                PassAnswer::Refused(_, refusal) => return Err(refusal),
            }
        }
        unreachable!()
    }

    /// The task looks.
    fn look(&mut self) -> Result<LongLook, Refusal>
        ensures seen { IfOk result (λ x. HasLooked J.terms.ops self.old.task 0 self.new.front x) }
    {
        let front = &mut self.front;
        let answer = self.lock.lock(self.rt).look(front, self.task, 0);
        front.is_legal();
        answer
    }

    /// The task sends its number, meets the other, looks, and leaves.
    pub fn take_turn(self, number: i32) -> Result<Turn<J>, Refusal>
        ensures good { IfOk result (λ turn. IsGood J.terms.ops turn.phase turn.front turn.later turn.seen) }
    {
        let mut player = self;
        player.send(number)?;
        player.signal()?;
        let phase = player.pass()?;
        let front = player.front.again();
        let seen = player.look()?;
        let later = player.front.again();
        Ok(Turn {
            front,
            phase,
            later,
            seen,
        })
    }

    /// The task meets the others. Whether that was in this phase, and it sees the expected sum.
    fn meet(&mut self, phase: Phase) -> Result<bool, Refusal> {
        self.send(change(self.task, phase))?;
        self.signal()?;
        let passed = self.pass()?;
        let seen = self.look()?;
        Ok(passed == phase && seen == Look::Value(sum_of(phase)))
    }

    /// The task meets the others in so many phases, and leaves. How often it saw the expected sum.
    pub fn play(self, phases: Phase) -> Result<u64, Refusal> {
        let mut player = self;
        let mut right = 0u64;
        for phase in 0..phases {
            if player.meet(phase)? {
                right = right.saturating_add(1);
            }
        }
        Ok(right)
    }
}

/// Whoever ends, as he should or by a refusal, leaves: nobody waits for him then.
impl<'a, 'p, J: Naming, R: Wait> Drop for Player<'a, 'p, J, R> {
    fn drop(self) {
        let Player {
            rt,
            lock,
            task,
            parker: _,
            mut front,
            mut out,
        } = self;
        let _left = lock.lock(rt).leave(&mut front, &mut out, task);
        wake(&mut out);
    }
}
