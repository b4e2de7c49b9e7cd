//! The steps of a turn under way, and of a plain signal: a signal, a claim, its report, a pass.
ghost use Rattle.std.specs.Prelude.{◌≡◌, ◌<◌, length, IfOk, IfErr, true};
ghost use Rattle.phase_model.specs.Replies.{reply, done_result};
ghost use Rattle.phase_model.specs.declared.call.Call.TheVariants.{Signal as signal, Pass as pass, SingleDone as single_done};
ghost use Rattle.world_records.specs.Kept.{task_at, story_at};
ghost use Rattle.world_records.specs.inner.Steps.{phaser_called, is_to_signal, signalled_on, signal_answer, signal_state, is_to_pass, may_claim, may_report, passed_on, pass_answer, pass_state, claim_answer, claim_state, report_answer, report_state};
ghost use Rattle.world_records.specs.StandsFor.{IsStep};

use super::Tables;
use phase_modes::{PhaserNumber, Refusal, TaskNumber};
use phaser_core::{Passing, Signalling};
use world_model::{Reply, Step, WorldEvent};

impl Tables {
    /// Asks to signal on a phaser for a task. A number without a phaser knows no task.
    fn signal_on(
        &mut self,
        phaser: PhaserNumber,
        task: TaskNumber,
        number: Option<u32>,
    ) -> Result<Signalling, Refusal>
        ensures reply { result ≡ signalled_on self.old phaser task number }
        ensures state { IfOk result (λ _. self.new ≡ phaser_called self.old phaser (signal task number)) }
        ensures place { IfOk result (λ _. phaser < length self.old.phasers) }
        ensures kept { IfErr result (λ _. self.new ≡ self.old) }
    {
        if phaser.place() >= self.phasers.len() {
            return Err(Refusal::NotRegistered);
        }
        let state = &mut self.phasers[phaser.place()];
        let signalling = state.signal(task, number)?;
        Ok(signalling)
    }

    /// Whether the task's next event is to signal with this number on this phaser.
    fn is_to_signal(&self, phaser: PhaserNumber, task: TaskNumber, number: Option<u32>) -> bool
        ensures to { result ≡ is_to_signal (task_at self.now task) phaser number }
        ensures place { result ≡ true → task < length self.now.tasks }
    {
        if task.place() >= self.tasks.len() {
            return false;
        }
        let line = &self.tasks[task.place()];
        line.is_to_signal(phaser, number)
    }

    /// A signal of an act under way.
    fn signal_due(
        &mut self,
        phaser: PhaserNumber,
        task: TaskNumber,
        number: Option<u32>,
    ) -> Result<Reply, Refusal>
        ensures answer { result ≡ signal_answer self.old phaser task number }
        ensures state { self.new ≡ signal_state self.old phaser task number }
    {
        if !self.is_to_signal(phaser, task, number) {
            return Err(Refusal::NotNow);
        }
        match self.signal_on(phaser, task, number)? {
            Signalling::Signalled => {
                let line = &mut self.tasks[task.place()];
                line.note_signal();
                Ok(Reply::Done)
            }
            Signalling::NotYet => Ok(Reply::NotYet),
        }
    }

    /// The step that makes a signal of an act under way.
    pub(super) fn step_signal(
        &mut self,
        phaser: PhaserNumber,
        task: TaskNumber,
        number: Option<u32>,
    ) -> Result<Reply, Refusal>
        ensures { IsStep (WorldEvent.Phaser phaser (Step.Sig task number)) self.old self.new result }
    {
        self.signal_due(phaser, task, number)
    }

    /// Passes a phaser for a task, or claims its single.
    fn pass_on(&mut self, phaser: PhaserNumber, task: TaskNumber) -> Result<Passing, Refusal>
        ensures reply { result ≡ passed_on self.old phaser task }
        ensures state { IfOk result (λ _. self.new ≡ phaser_called self.old phaser (pass task)) }
        ensures place { IfOk result (λ _. phaser < length self.old.phasers) }
        ensures kept { IfErr result (λ _. self.new ≡ self.old) }
    {
        if phaser.place() >= self.phasers.len() {
            return Err(Refusal::NotRegistered);
        }
        let state = &mut self.phasers[phaser.place()];
        let passing = state.pass(task)?;
        Ok(passing)
    }

    /// Whether the task may claim the single of a phaser.
    pub(super) fn may_claim(&self, phaser: PhaserNumber, task: TaskNumber) -> bool
        ensures { result ≡ may_claim (story_at self.now phaser) task }
    {
        if phaser.place() >= self.phasers.len() {
            return false;
        }
        let state = &self.phasers[phaser.place()];
        state.may_claim(task)
    }

    /// Whether the task may report the single of a phaser done.
    pub(super) fn may_report(&self, phaser: PhaserNumber, task: TaskNumber) -> bool
        ensures { result ≡ may_report (story_at self.now phaser) task }
    {
        if phaser.place() >= self.phasers.len() {
            return false;
        }
        let state = &self.phasers[phaser.place()];
        state.may_report(task)
    }

    /// Whether the task's next event is to pass this phaser, the single aside.
    fn is_to_pass(&self, phaser: PhaserNumber, task: TaskNumber) -> bool
        ensures to { result ≡ is_to_pass (task_at self.now task) phaser }
        ensures place { result ≡ true → task < length self.now.tasks }
    {
        if task.place() >= self.tasks.len() {
            return false;
        }
        let line = &self.tasks[task.place()];
        line.is_to_pass(phaser)
    }

    /// A pass of an act under way.
    fn pass_due(&mut self, phaser: PhaserNumber, task: TaskNumber) -> Result<Reply, Refusal>
        ensures answer { result ≡ pass_answer self.old phaser task }
        ensures state { self.new ≡ pass_state self.old phaser task }
    {
        if !self.is_to_pass(phaser, task)
            || self.may_claim(phaser, task)
            || self.may_report(phaser, task)
        {
            return Err(Refusal::NotNow);
        }
        match self.pass_on(phaser, task)? {
            Passing::Passed(phase) => {
                let line = &mut self.tasks[task.place()];
                line.note_pass();
                Ok(Reply::Phase(phase))
            }
            Passing::Claimed(_) => Ok(Reply::Done),
            Passing::NotYet => Ok(Reply::NotYet),
        }
    }

    /// The step that makes a pass of an act under way.
    pub(super) fn step_pass(
        &mut self,
        phaser: PhaserNumber,
        task: TaskNumber,
    ) -> Result<Reply, Refusal>
        ensures { IsStep (WorldEvent.Phaser phaser (Step.Pass task)) self.old self.new result }
    {
        self.pass_due(phaser, task)
    }

    /// Reports the single of a phaser done for a task.
    fn report_on(&mut self, phaser: PhaserNumber, task: TaskNumber) -> Result<(), Refusal>
        ensures reply { result ≡ done_result (reply (story_at self.old phaser) (single_done task)) }
        ensures state { IfOk result (λ _. self.new ≡ phaser_called self.old phaser (single_done task)) }
        ensures kept { IfErr result (λ _. self.new ≡ self.old) }
    {
        if phaser.place() >= self.phasers.len() {
            return Err(Refusal::NotRegistered);
        }
        let state = &mut self.phasers[phaser.place()];
        state.single_done(task)?;
        Ok(())
    }

    /// A claim in a turn under way.
    fn claim_due(&mut self, phaser: PhaserNumber, task: TaskNumber) -> Result<Reply, Refusal>
        ensures answer { result ≡ claim_answer self.old phaser task }
        ensures state { self.new ≡ claim_state self.old phaser task }
    {
        if !self.is_to_pass(phaser, task) || !self.may_claim(phaser, task) {
            return Err(Refusal::NotNow);
        }
        match self.pass_on(phaser, task)? {
            Passing::Passed(phase) => Ok(Reply::Phase(phase)),
            Passing::Claimed(_) => Ok(Reply::Done),
            Passing::NotYet => Ok(Reply::NotYet),
        }
    }

    /// A report in a turn under way.
    fn report_due(&mut self, phaser: PhaserNumber, task: TaskNumber) -> Result<Reply, Refusal>
        ensures answer { result ≡ report_answer self.old phaser task }
        ensures state { self.new ≡ report_state self.old phaser task }
    {
        if !self.is_to_pass(phaser, task)
            || self.may_claim(phaser, task)
            || !self.may_report(phaser, task)
        {
            return Err(Refusal::NotNow);
        }
        self.report_on(phaser, task)?;
        Ok(Reply::Done)
    }

    /// The step that claims a single in a turn under way.
    pub(super) fn step_claim(
        &mut self,
        phaser: PhaserNumber,
        task: TaskNumber,
    ) -> Result<Reply, Refusal>
        ensures { IsStep (WorldEvent.Phaser phaser (Step.Claim task)) self.old self.new result }
    {
        self.claim_due(phaser, task)
    }

    /// The step that reports a single done in a turn under way.
    pub(super) fn step_report(
        &mut self,
        phaser: PhaserNumber,
        task: TaskNumber,
    ) -> Result<Reply, Refusal>
        ensures { IsStep (WorldEvent.Phaser phaser (Step.Did task)) self.old self.new result }
    {
        self.report_due(phaser, task)
    }
}
