//! The tasks of a program while it runs by picks, each with its seat.
ghost use Rattle.std.specs.Prelude.{◌≡◌, ◌<◌, ◌∷◌, [], List, length, IfOk, IfErr};
ghost use Rattle.phase_modes.specs.declared.reg.Mode as modes;
ghost use Rattle.phase_modes.specs.declared.phased.Pair as phased;
ghost use Rattle.phase_modes.specs.declared.refusal.Refusal.TheVariants.{Memory as NoMemory};
ghost use Rattle.phase_model.specs.declared.terms.Terms.{Terms};
ghost use Rattle.job_script.specs.Program as programs;
ghost use Rattle.job_script.specs.Steps.{begun, next_for};
ghost use Rattle.world_model.specs.declared.event.Begun.TheVariants.{Async};
ghost use Rattle.world_model.specs.declared.event.Step.TheVariants.{Make};
ghost use Rattle.world_model.specs.declared.event.WorldEvent as events;
ghost use Rattle.world_model.specs.declared.event.WorldEvent.TheVariants.{Phaser, Begin};
ghost use Rattle.trace_walk.specs.Scripts.{body_of, meanings, next_act};
ghost use Rattle.schedule_run.specs.inner.Bodies.{BodiesStand, IsAsked};

use job_script::{Act, Answer, Program, ScriptBody};
use phase_modes::{PhaserNumber, Refusal, TaskNumber};
use std::alloc::Global;
use trace_walk::Seat;

/// The tasks of a program by number. A task has a seat from its spawn on.
#[derive(Drop)]
pub(crate) struct Bodies<'p> {
    pub seats: Vec<Option<Seat<ScriptBody<'p>>>>,
}

impl<'p> Bodies<'p> {
    /// The tasks before the first event: the root has its body, and no other task has one. It takes
    /// a place for each task that the limits allow; `Memory` if there is too little for them.
    pub(crate) fn new(alloc: Global, program: &'p Program) -> Result<Bodies<'p>, Refusal>
        ensures stand { IfOk result (λ b. BodiesStand program.now [] b.seats.items) }
        ensures places { IfOk result (λ b. length b.seats.items ≡ program.now.limits.tasks) }
        ensures memory { IfErr result (λ e. e ≡ NoMemory) }
    {
        let tasks = program.limits().tasks;
        let mut seats = Vec::new(alloc);
        seats.push(Some(Seat::begun(program.root())))?;
        for _unnamed in 1..tasks {
            seats.push(None)?;
        }
        Ok(Bodies { seats })
    }

    /// The next act of a task; its end if it has no seat.
    pub(crate) fn next_act(&mut self, task: u32) -> Act<ScriptBody<'p>>
        ensures given { (p : programs.Program) (w : List events.WorldEvent)
            → BodiesStand p w self.old.seats.items
            → result ≡ next_for (meanings p w task) (next_act p w task) }
        ensures asked { (p : programs.Program) (w : List events.WorldEvent)
            → BodiesStand p w self.old.seats.items
            → IsAsked p w task self.new.seats.items }
        ensures places { length self.new.seats.items ≡ length self.old.seats.items }
    {
        let place = task as usize;
        if place >= self.seats.len() {
            return Act::End;
        }
        match &mut self.seats[place] {
            None => Act::End,
            Some(seat) => {
                let heard = seat.heard;
                seat.heard = Answer::Done;
                match seat.body.step(heard) {
                    Ok(act) => act,
                    Err(_) => Act::End,
                }
            }
        }
    }

    /// Reports to a task that it made the phaser that its last act asked for.
    pub(crate) fn report_made(&mut self, phaser: PhaserNumber, task: TaskNumber)
        ensures stand { (p : programs.Program) (w : List events.WorldEvent)
            (m : modes.Mode) (terms : Terms)
            → IsAsked p w task self.old.seats.items
            → BodiesStand p (Phaser phaser (Make task m terms) ∷ w) self.new.seats.items }
        ensures places { length self.new.seats.items ≡ length self.old.seats.items }
    {
        let place = task.place();
        if place >= self.seats.len() {
            return;
        }
        if let Some(seat) = &mut self.seats[place] {
            seat.heard = Answer::Made(phaser.get());
        }
    }

    /// Gives the child of a task's last act its seat.
    pub(crate) fn seat_child(&mut self, child: u32, body: ScriptBody<'p>)
        requires { child < length self.old.seats.items }
        ensures stand { (p : programs.Program) (w : List events.WorldEvent) (t : _) (pairs : List phased.Pair)
            → IsAsked p w t self.old.seats.items
            → body.entry ≡ begun (body_of (next_act p w t)) (meanings p w t)
            → BodiesStand p (Begin t (Async child pairs) ∷ w) self.new.seats.items }
        ensures places { length self.new.seats.items ≡ length self.old.seats.items }
    {
        self.seats[child as usize] = Some(Seat::begun(body));
    }
}
