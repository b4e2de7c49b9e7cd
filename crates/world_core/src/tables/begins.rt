//! The beginnings of acts: what each is refused by, and what it leaves.
ghost use Rattle.std.specs.Prelude.{◌≡◌, ◌<◌, length, IfOk};
ghost use Rattle.phase_modes.specs.Refusal.{first_refusal};
ghost use Rattle.world_model.specs.ActConditions.{free_unless};
ghost use Rattle.world_records.specs.inner.Steps.{owing, turn_begun, with_task};
ghost use Rattle.world_records.specs.inner.Begins.{begin_refusal, begin_answer, begin_state, entered, line_begun, IsChildWithin};
ghost use Rattle.world_records.specs.StandsFor.{IsStep};

use super::Tables;
use phase_modes::{Phased, Refusal, TaskNumber};
use world_model::{Begun, Reply, WorldEvent};

impl Tables {
    /// What a plain signal is refused by.
    fn may_signal(&self, task: TaskNumber) -> Result<(), Refusal>
        ensures answer { result ≡ free_unless (begin_refusal self.now task Begun.Signal) }
        ensures place { IfOk result (λ _. task < length self.now.tasks) }
    {
        self.may_act(task, false, true)?;
        let line = &self.tasks[task.place()];
        if line.leads_anywhere(task, &self.phasers) {
            return Err(Refusal::AlreadySignalled);
        }
        Ok(())
    }

    /// What a plain wait is refused by.
    fn may_wait(&self, task: TaskNumber) -> Result<(), Refusal>
        ensures answer { result ≡ free_unless (begin_refusal self.now task Begun.Wait) }
        ensures place { IfOk result (λ _. task < length self.now.tasks) }
    {
        self.may_act(task, false, true)?;
        let line = &self.tasks[task.place()];
        if line.owes_anywhere(task, &self.phasers) {
            return Err(Refusal::NotSignalled);
        }
        Ok(())
    }

    /// What a `next` with a single of this number is refused by.
    fn may_next_single(&self, task: TaskNumber, number: u32) -> Result<(), Refusal>
        ensures answer { result ≡ free_unless (begin_refusal self.now task (Begun.NextSingle number)) }
        ensures place { IfOk result (λ _. task < length self.now.tasks) }
    {
        self.may_act(task, false, true)?;
        let line = &self.tasks[task.place()];
        if !line.is_on_one() {
            return Err(Refusal::OnePhaserOnly);
        }
        if line.lacks_single(task, &self.phasers) {
            return Err(Refusal::NoSingle);
        }
        if line.leads_anywhere(task, &self.phasers) {
            return Err(Refusal::AlreadySignalled);
        }
        Ok(())
    }

    /// What a shut of the innermost finish is refused by.
    fn may_begin_shut(&self, task: TaskNumber) -> Result<(), Refusal>
        ensures answer { result ≡ free_unless (begin_refusal self.now task Begun.Shut) }
        ensures place { IfOk result (λ _. task < length self.now.tasks) }
    {
        self.may_act(task, false, true)?;
        let line = &self.tasks[task.place()];
        if !line.has_finish() {
            return Err(Refusal::NoFinish);
        }
        Ok(())
    }

    /// What an end is refused by.
    fn may_begin_end(&self, task: TaskNumber) -> Result<(), Refusal>
        ensures answer { result ≡ free_unless (begin_refusal self.now task Begun.End) }
        ensures place { IfOk result (λ _. task < length self.now.tasks) }
    {
        self.may_act(task, false, false)?;
        let line = &self.tasks[task.place()];
        if line.has_finish() {
            return Err(Refusal::FinishOpen);
        }
        Ok(())
    }

    /// What the act is refused by.
    pub(super) fn may_begin(&self, task: TaskNumber, begun: &Begun) -> Result<(), Refusal>
        ensures answer { result ≡ free_unless (begin_refusal self.now task begun.now) }
        ensures place { IfOk result (λ _. task < length self.now.tasks) }
        ensures child { IfOk result (λ _. IsChildWithin begun.now self.now.tasks) }
    {
        match *begun {
            Begun::Async(child, pairs) => self.may_spawn(task, TaskNumber::of(child), pairs),
            Begun::Signal => self.may_signal(task),
            Begun::Wait => self.may_wait(task),
            Begun::Next => self.may_act(task, false, true),
            Begun::NextSingle(number) => self.may_next_single(task, number),
            Begun::Shut => self.may_begin_shut(task),
            Begun::End => self.may_begin_end(task),
        }
    }

    /// Begins a plain signal.
    fn enter_signal(&mut self, task: TaskNumber)
        requires { task < length self.old.tasks }
        ensures { self.new ≡ with_task self.old task (line_begun self.old task Begun.Signal) }
    {
        let line = &mut self.tasks[task.place()];
        line.owe(task, &self.phasers);
        line.begin_signals();
    }

    /// Begins a turn that signals with this number.
    fn enter_turn(&mut self, task: TaskNumber, number: Option<u32>)
        requires { task < length self.old.tasks }
        ensures { self.new ≡ with_task self.old task (turn_begun number (owing self.old task)) }
    {
        let line = &mut self.tasks[task.place()];
        line.owe(task, &self.phasers);
        line.begin_turn(number);
    }

    /// Begins to spawn a child, whose number is in use from now on.
    fn enter_spawn(&mut self, task: TaskNumber, child: TaskNumber, pairs: Phased)
        requires place { task < length self.old.tasks }
        requires child { child < length self.old.tasks }
        ensures { self.new ≡ entered self.old task (Begun.Async child pairs) }
    {
        let line = &mut self.tasks[task.place()];
        line.begin_spawn(child, pairs);
        let named = &mut self.tasks[child.place()];
        named.note_name(task);
    }

    /// Begins the act.
    fn enter(&mut self, task: TaskNumber, begun: Begun)
        requires place { task < length self.old.tasks }
        requires child { IsChildWithin begun self.old.tasks }
        ensures { self.new ≡ entered self.old task begun }
    {
        match begun {
            Begun::Async(child, pairs) => self.enter_spawn(task, TaskNumber::of(child), pairs),
            Begun::Signal => self.enter_signal(task),
            Begun::Wait => {
                let line = &mut self.tasks[task.place()];
                line.begin_wait();
            }
            Begun::Next => self.enter_turn(task, None),
            Begun::NextSingle(number) => self.enter_turn(task, Some(number)),
            Begun::Shut => {
                let line = &mut self.tasks[task.place()];
                line.begin_shut(&self.enclosing);
            }
            Begun::End => {
                let line = &mut self.tasks[task.place()];
                line.begin_end(task);
            }
        }
    }

    /// Begins the act if it is not refused.
    fn begin(&mut self, task: TaskNumber, begun: Begun) -> Result<Reply, Refusal>
        ensures answer { result ≡ begin_answer self.old task begun }
        ensures state { self.new ≡ begin_state self.old task begun }
        ensures tasks { length self.old.tasks ≡ self.old.limits.tasks }
    {
        let _most = self.most_tasks();
        self.may_begin(task, &begun)?;
        self.enter(task, begun);
        Ok(Reply::Done)
    }

    /// The step that begins an act.
    pub(super) fn step_begin(&mut self, task: TaskNumber, begun: Begun) -> Result<Reply, Refusal>
        ensures { IsStep (WorldEvent.Begin task begun) self.old self.new result }
    {
        self.begin(task, begun)
    }
}
