//! What a task knows of itself, and how that changes with each event that it makes.
ghost use Rattle.std.specs.Prelude.{◌≡◌, ◌+◌, ◌<◌, ◌≤◌, ◌==◌, not, ◌∷◌, ◌++◌, [], true, false, map, filter, find, drop, min, length, IfOk, IfErr, OnOk, OnErr, vec_capacity};
ghost use Rattle.task_standing.specs.Standing.{fresh, inner_of, pair_of, marked, acted, begun, passed_by, registered_by, shut_by};
ghost use Rattle.task_standing.specs.StillToMake.{still_to_make};

use crate::held::Held;
use crate::plan::Plan;
use phase_modes::{FinishNumber, Mode, Pair, Phased, Refusal, TaskNumber};
use std::alloc::{AllocError, Global};
use std::marker::Model;

/// How many phasers a task holds at once, at most.
const MOST_HELD: usize = 16;

/// What a task in flight knows of itself. Contracts see it as a `Known`.
#[derive(Drop)]
pub struct Standing {
    pub(crate) number: u32,
    pub(crate) plan: Plan,
    /// The phasers that it holds, in the order in which it got them.
    pub(crate) holding: Vec<Held>,
    /// Its own open finishes, the innermost last.
    pub(crate) finishes: Vec<u32>,
    /// The finish in which it was spawned.
    pub(crate) home: u32,
    /// How many acts it has begun, its end aside.
    pub(crate) acts: u64,
}

impl Model for Standing {
    ghost use Rattle.std.specs.Prelude.{◌≤◌, length, reverse, vec_capacity};
    ghost use Rattle.task_standing.specs.Known.{Known};

    ghost Value = { Known };

    ghost view = { λ s. record {
      number = s.number;
      plan = s.plan;
      holding = s.holding.items;
      finishes = reverse s.finishes.items;
      home = s.home;
      acts = s.acts;
    } };

    ghost invariant = { λ s. (16 ≤ vec_capacity s.holding) × (length s.holding.items ≤ 16) };
}

impl Standing {
    /// A task before its first act, which is spawned in the finish `home`. `Memory` if there is
    /// none for the phasers that it may hold later; the finishes that it opens take theirs later.
    pub fn new(alloc: Global, number: TaskNumber, home: FinishNumber) -> Result<Standing, Refusal>
        ensures fresh { IfOk result (λ s. s ≡ fresh number home) }
        ensures memory { IfErr result (λ e. e ≡ Refusal.Memory) }
    {
        let Ok(holding) = Vec::with_capacity(alloc, MOST_HELD) else {
            return Err(Refusal::Memory);
        };
        Ok(Standing {
            number: number.get(),
            plan: Plan::Idle,
            holding,
            finishes: Vec::new(alloc),
            home: home.get(),
            acts: 0,
        })
    }

    /// The task's number.
    pub fn number(&self) -> u32
        ensures { result ≡ self.now.number }
    {
        self.number
    }

    /// Its innermost open finish: the one that it was spawned in, if it has none of its own.
    pub fn inner(&self) -> u32
        ensures { result ≡ inner_of self.now }
    {
        self.finishes.last().copied().unwrap_or(self.home)
    }

    /// What it knows of this phaser, if it holds it.
    pub fn held(&self, phaser: u32) -> Option<Held>
        ensures { result ≡ find (λ h. h.phaser == phaser) self.now.holding }
    {
        for i in 0..self.holding.len() {
            let held = self.holding[i];
            if held.phaser == phaser {
                return Some(held);
            }
        }
        None
    }

    /// All phasers that it holds, each in its own mode: what a spawn names that hands them all on.
    pub fn pairs(&self) -> Phased
        ensures { result ≡ map pair_of self.now.holding }
    {
        let mut pairs = Phased::none();
        for i in 0..self.holding.len() {
            let held = self.holding[i];
            pairs.push(Pair {
                phaser: held.phaser,
                mode: held.mode,
            });
        }
        pairs
    }

    /// Holds one phaser more. `PhasersFull` if it holds 16, and then it stays as it was.
    pub fn join(&mut self, held: Held) -> Result<(), Refusal>
        ensures joined { OnOk result (self.new
            ≡ record self.old { holding = self.old.holding ++ held ∷ [] }) }
        ensures full { OnErr result ((length self.old.holding ≡ 16) × (self.new ≡ self.old)) }
        ensures refused { IfErr result (λ e. e ≡ Refusal.PhasersFull) }
    {
        if self.holding.len() >= MOST_HELD {
            return Err(Refusal::PhasersFull);
        }
        self.holding.push_reserved(held);
        Ok(())
    }

    /// Takes the memory to open one finish more. Nothing else changes.
    pub fn reserve_opening(&mut self) -> Result<(), AllocError>
        ensures { self.new ≡ self.old }
    {
        self.finishes.reserve(1)
    }

    /// Notes that it opened this finish, by an act of one event. `Memory` if there is none to
    /// keep it, and then it stays as it was; after `reserve_opening` there is.
    pub fn note_opening(&mut self, finish: u32) -> Result<(), Refusal>
        ensures opened { OnOk result (self.new
            ≡ record (acted self.old) { finishes = finish ∷ self.old.finishes }) }
        ensures stays { OnErr result (self.new ≡ self.old) }
        ensures memory { IfErr result (λ e. e ≡ Refusal.Memory) }
    {
        if self.finishes.push(finish).is_err() {
            return Err(Refusal::Memory);
        }
        self.note_act();
        Ok(())
    }

    /// Notes that it made this phaser, by an act of one event: it holds it in this mode, in its
    /// innermost finish. `PhasersFull` if it holds 16, and then it stays as it was.
    pub fn note_making(&mut self, phaser: u32, mode: Mode) -> Result<(), Refusal>
        ensures made { OnOk result (self.new
            ≡ record (acted self.old) {
              holding = self.old.holding
                  ++ record { phaser = phaser; finish = inner_of self.old; mode = mode; ahead = false } ∷ [];
            }) }
        ensures stays { OnErr result (self.new ≡ self.old) }
        ensures refused { IfErr result (λ e. e ≡ Refusal.PhasersFull) }
    {
        let finish = self.inner();
        self.join(Held {
            phaser,
            finish,
            mode,
            ahead: false,
        })?;
        self.note_act();
        Ok(())
    }

    /// Notes that it made an act of one event: of that nothing is left, whatever it was about before.
    pub fn note_act(&mut self)
        ensures acted { self.new ≡ acted self.old }
        ensures nothing { still_to_make self.new ≡ [] }
    {
        self.plan = Plan::Idle;
        self.acts = self.acts.saturating_add(1);
    }

    /// Notes that it began an act that goes on by this plan. An end isn't counted.
    pub fn begin(&mut self, plan: Plan)
        ensures { self.new ≡ begun plan self.old }
    {
        if !matches!(plan, Plan::Ending) {
            self.acts = self.acts.saturating_add(1);
        }
        self.plan = plan;
    }

    /// Notes that it gives up what it is about, and ends.
    pub fn give_up(&mut self)
        ensures { self.new ≡ record self.old { plan = Plan.Ending } }
    {
        self.plan = Plan::Ending;
    }

    /// Notes a signal on this phaser.
    pub fn note_signal(&mut self, phaser: u32)
        ensures { self.new ≡ record self.old { holding = map (marked phaser true) self.old.holding } }
    {
        mark(&mut self.holding, phaser, true);
    }

    /// Notes a pass of this phaser, with which a turn goes on to the next one.
    pub fn note_pass(&mut self, phaser: u32)
        ensures { self.new ≡ record self.old {
          plan = passed_by self.old.plan;
          holding = map (marked phaser false) self.old.holding;
        } }
    {
        mark(&mut self.holding, phaser, false);
        self.plan = after_pass(self.plan);
    }

    /// Notes that its child is registered for the next pair.
    pub fn note_registration(&mut self)
        ensures { self.new ≡ record self.old { plan = registered_by self.old.plan } }
    {
        self.plan = after_registration(self.plan);
    }

    /// Notes that its child is born: the spawn is made.
    pub fn note_birth(&mut self)
        ensures { self.new ≡ record self.old { plan = Plan.Idle } }
    {
        self.plan = Plan::Idle;
    }

    /// Notes that its innermost own finish is shut, with which an act of shutting is made.
    pub fn note_shut(&mut self)
        ensures { self.new
            ≡ record self.old { plan = shut_by self.old.plan; finishes = drop 1 self.old.finishes } }
    {
        let _shut = self.finishes.pop();
        if matches!(self.plan, Plan::Shutting) {
            self.plan = Plan::Idle;
        }
    }

    /// Leaves this phaser.
    pub fn leave(&mut self, phaser: u32)
        ensures { self.new ≡ record self.old {
          holding = filter (λ h. not (h.phaser == phaser)) self.old.holding;
        } }
    {
        leave_among(&mut self.holding, phaser);
    }
}

/// Notes whether the task has signalled on this phaser since its last turn there.
fn mark(holding: &mut [Held], phaser: u32, ahead: bool)
    ensures { holding.new ≡ map (marked phaser ahead) holding.old }
{
    for i in 0..holding.len() {
        holding[i] = holding[i].marked(phaser, ahead);
    }
}

/// Takes a phaser off the list.
fn leave_among(holding: &mut Vec<Held>, phaser: u32)
    ensures left { holding.new.items ≡ filter (λ h. not (h.phaser == phaser)) holding.old.items }
    ensures few { length holding.new.items ≤ length holding.old.items }
    ensures room { vec_capacity holding.new ≡ vec_capacity holding.old }
{
    holding.retain(|h| h.phaser != phaser);
}

/// What a task is about after a pass. The first pass of a turn comes once all its signals are made.
fn after_pass(plan: Plan) -> Plan
    ensures { result ≡ passed_by plan }
{
    match plan {
        Plan::Signalling(_, true) => Plan::Turning(1),
        Plan::Turning(next) => Plan::Turning(next.saturating_add(1)),
        _ => plan,
    }
}

/// What a task is about after its child's registration for a pair.
fn after_registration(plan: Plan) -> Plan
    ensures { result ≡ registered_by plan }
{
    match plan {
        Plan::Spawning(child, pairs, made) => {
            Plan::Spawning(child, pairs, made.saturating_add(1))
        }
        _ => plan,
    }
}
