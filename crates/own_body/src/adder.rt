//! Tasks that add up: what each does, and what it says of the sum that it saw, its turns and its children.
ghost use Rattle.std.specs.Prelude.{◌≡◌, ◌≤◌, ℕ, true, map, None, Ok, IfOk};
ghost use Rattle.phase_model.specs.declared.terms.Terms.{Terms};
ghost use Rattle.trace_model.specs.Projections.{log, projection};
ghost use Rattle.tasks_in_flight.specs.Heard.{Asked, Seen, make, look, next, ends, asked_by, IsSpawned, IsAnswerTo, IsHeard};
ghost use Rattle.phased_rt.specs.Says.{story_in, HasEnded};
ghost use Rattle.own_body.specs.Sums.{IsSeen, IsSum, HasSeenSum};
ghost use Rattle.own_body.specs.Turns.{none, passes, spawns, TakesNone, AreCounted};

use crate::counts::Counts;
use phase_model::{Look, Op, Ops};
use phase_modes::{Limits, Mode, Refusal};
use phased_rt::{Act, Answer, Body, OpenGate, Report, run};
use std::alloc::Global;
use std::sync::Wait;
use std::thread::Threads;

/// What a task does next. The root makes the phaser, which is number 0, spawns the others, and looks
/// once.
#[derive(Clone, Copy)]
pub enum Next {
    Makes,
    Spawns,
    Sends,
    Turns,
    Looks,
    Hears,
}

/// A task, with its number, how often it still sends, the sum that it saw last, and its turns and
/// children. The root's number is that of the task that it spawns next, down to 1; the others' is what
/// they send next.
#[derive(Clone, Copy)]
pub struct Adder {
    pub next: Next,
    pub number: i32,
    pub rounds: u32,
    pub saw: Look,
    pub counts: Counts,
}

impl Body for Adder {
    ghost use Rattle.own_body.specs.Sums.{IsSeen, HasLookedOnce};
    ghost use Rattle.own_body.specs.declared.adder.Next.{Next};
    ghost use Rattle.own_body.specs.declared.adder.Next.TheVariants.{Makes, Looks, Hears};
    ghost use Rattle.own_body.specs.Turns.{TakesNone, AreCounted};
    ghost use Rattle.std.specs.Prelude.{◌≡◌, true, None};
    ghost use Rattle.phase_modes.specs.declared.reg.Mode.{Mode};
    ghost use Rattle.phase_model.specs.declared.op.Look.TheVariants.{Nothing};
    ghost use Rattle.phase_model.specs.declared.terms.Terms.{Terms};
    ghost use Rattle.tasks_in_flight.specs.Heard.{make, look, next, ends};

    /// Its task saw on phaser 0 what it saw, under the number by which that phaser knows it. If it is about
    /// to hear, it has asked for a look there. If it asks for its end, its task has looked. Its counts are
    /// right. If it is about to look, it has asked for its next phase. Once it has made phaser 0, no act of
    /// its takes that from its task. If it is about to make a phaser, or has asked for one, it has seen no
    /// sum: until the phaser is made, 0 may be the number of another.
    ghost shows = { λ b task asked seen. IsSeen (seen.own 0) (seen.stories 0) b.saw
        × (b.next ≡ Hears → asked ≡ look 0 0)
        × (asked ≡ ends → HasLookedOnce (seen.own 0) (seen.stories 0))
        × AreCounted task b.counts seen
        × (b.next ≡ Looks → asked ≡ next None)
        × (b.counts.holds ≡ true → TakesNone asked)
        × (b.next ≡ Makes → b.saw ≡ Nothing)
        × ((mode : Mode) (terms : Terms) → asked ≡ make mode terms → b.saw ≡ Nothing) };

    fn step(&mut self, answer: Answer) -> Result<Act<Adder>, Refusal> {
        self.count(answer);
        self.hear(answer);
        Ok(self.act())
    }

    fn single(&mut self, _number: u32) {}
}

impl Adder {
    /// Whether it is about to hear that its turn has ended.
    fn turns(&self) -> bool
        ensures { result ≡ true → self.now.next ≡ Next.Looks }
    {
        matches!(self.next, Next::Looks)
    }

    /// It counts what came of its last act.
    fn count(&mut self, answer: Answer)
        ensures next { self.new.next ≡ self.old.next }
        ensures saw { self.new.saw ≡ self.old.saw }
        ensures counts { (task : ℕ) (asked : Asked) (seen now : Seen) → (self.old.next ≡ Next.Looks → asked ≡ next None)
            → (self.old.counts.holds ≡ true → TakesNone asked) → AreCounted task self.old.counts seen
            → IsHeard task asked answer seen now → AreCounted task self.new.counts now }
    {
        let turns = self.turns();
        self.counts.hear(turns, answer);
    }

    /// It takes in what its look saw, and will send that next.
    fn hear(&mut self, answer: Answer)
        ensures next { self.new.next ≡ self.old.next }
        ensures counts { self.new.counts ≡ self.old.counts }
        ensures saw { (task : ℕ) (asked : Asked) (seen now : Seen) → (self.old.next ≡ Next.Hears → asked ≡ look 0 0)
            → IsAnswerTo task asked answer seen now → IsSeen (now.own 0) (now.stories 0) self.old.saw
            → IsSeen (now.own 0) (now.stories 0) self.new.saw }
        ensures same { self.old.next ≡ Next.Makes → self.new.saw ≡ self.old.saw }
    {
        if let (Next::Hears, Answer::Saw(saw)) = (self.next, answer) {
            self.saw = saw;
            if let Look::Value(sum) = saw {
                self.number = i32::try_from(sum).unwrap_or(i32::MAX);
            }
        }
    }

    /// Its next act.
    fn act(&mut self) -> Act<Adder>
        ensures saw { self.new.saw ≡ self.old.saw }
        ensures counts { self.new.counts ≡ self.old.counts }
        ensures takes { TakesNone (asked_by (Ok result)) }
        ensures turns { self.new.next ≡ Next.Looks → asked_by (Ok result) ≡ next None }
        ensures looks { self.new.next ≡ Next.Hears → asked_by (Ok result) ≡ look 0 0 }
        ensures end { asked_by (Ok result) ≡ ends → self.old.next ≡ Next.Hears }
        ensures made { self.new.next ≡ Next.Makes → ⊥ }
        ensures makes { (mode : Mode) (terms : Terms) → asked_by (Ok result) ≡ make mode terms → self.old.next ≡ Next.Makes }
        ensures child { (child : Adder) → IsSpawned child (Ok result) → (child.saw ≡ Look.Nothing) × (child.next ≡ Next.Sends) × (child.counts ≡ none) }
    {
        match self.next {
            Next::Makes => {
                self.next = Next::Spawns;
                Act::New(Mode::SigWait, one_sum(), None)
            }
            Next::Spawns if self.number > 0 => self.spawn(),
            Next::Sends => {
                self.next = Next::Turns;
                self.send()
            }
            Next::Hears if self.rounds > 0 => {
                self.next = Next::Turns;
                self.send()
            }
            Next::Spawns | Next::Turns => {
                self.next = Next::Looks;
                Act::Next
            }
            Next::Looks => {
                self.next = Next::Hears;
                Act::Look(0, 0)
            }
            Next::Hears => {
                self.next = Next::Sends;
                Act::End
            }
        }
    }

    /// It spawns a task for its number, on the phaser that it made.
    fn spawn(&mut self) -> Act<Adder>
        ensures end { asked_by (Ok result) ≡ ends → ⊥ }
        ensures makes { (mode : Mode) (terms : Terms) → asked_by (Ok result) ≡ make mode terms → ⊥ }
        ensures takes { TakesNone (asked_by (Ok result)) }
        ensures saw { self.new.saw ≡ self.old.saw }
        ensures counts { self.new.counts ≡ self.old.counts }
        ensures next { self.new.next ≡ self.old.next }
        ensures child { (child : Adder) → IsSpawned child (Ok result) → (child.saw ≡ Look.Nothing) × (child.next ≡ Next.Sends) × (child.counts ≡ none) }
    {
        let child = Adder {
            next: Next::Sends,
            number: self.number,
            rounds: 3,
            saw: Look::Nothing,
            counts: Counts::none(),
        };
        self.number = self.number.saturating_sub(1);
        Act::AsyncAll(child)
    }

    /// It sends its number.
    fn send(&mut self) -> Act<Adder>
        ensures end { asked_by (Ok result) ≡ ends → ⊥ }
        ensures makes { (mode : Mode) (terms : Terms) → asked_by (Ok result) ≡ make mode terms → ⊥ }
        ensures takes { TakesNone (asked_by (Ok result)) }
        ensures saw { self.new.saw ≡ self.old.saw }
        ensures counts { self.new.counts ≡ self.old.counts }
        ensures next { self.new.next ≡ self.old.next }
        ensures child { (child : Adder) → IsSpawned child (Ok result) → ⊥ }
    {
        self.rounds = self.rounds.saturating_sub(1);
        Act::Send(0, 0, self.number)
    }
}

/// The operators of a phaser with one sum.
fn one_sum() -> Ops {
    let mut ops = Ops::none();
    ops.push(Op::Sum);
    ops
}

/// Three tasks add up, by two workers. The sum that the root saw is the fold of all values that were
/// ever sent for the phase before the root's own, which was closed when the root saw it. So has each task
/// seen one that ended by itself. By the trace the root has passed phaser 0 no less often, and spawned no
/// fewer children, than it counted.
pub fn add_up<R: Threads + Wait + Sync>(rt: &R, alloc: Global) -> Result<Report<Adder>, Refusal>
    ensures sum { IfOk result (λ r. ∥ IsSum 0 (story_in r.trace.limits r.trace.events 0) r.root.saw ∥₁) }
    ensures each { IfOk result (λ r. (task : ℕ) → HasEnded task r.trace.events → ∥ HasSeenSum task (story_in r.trace.limits r.trace.events 0) ∥₁) }
    ensures turns { IfOk result (λ r. r.root.counts.turns ≤ passes 0 (story_in r.trace.limits r.trace.events 0).past) }
    ensures children { IfOk result (λ r. r.root.counts.children ≤ spawns 0 (map (λ e. e.1) (projection (log 0) r.trace.events))) }
{
    let root = Adder {
        next: Next::Makes,
        number: 3,
        rounds: 0,
        saw: Look::Nothing,
        counts: Counts::none(),
    };
    let report = run(rt, alloc, root, Limits::default(), 2, &OpenGate)?;
    Ok(report)
}
