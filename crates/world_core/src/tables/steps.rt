//! Any step, by its kind.
ghost use Rattle.std.specs.Prelude.{◌≡◌};
ghost use Rattle.world_records.specs.StandsFor.{IsStep};
ghost use Rattle.trace_model.specs.Explained.{event_of, step_of};
ghost use Rattle.trace_model.specs.Views.{long_event, short_step, viewed};

use super::Tables;
use finish_core::FinishEvent;
use phase_modes::{FinishNumber, PhaserNumber, Refusal, TaskNumber};
use trace_model::{EventView, LargeEvent, ShortStep};
use world_model::{Begun, Reply, Step, WorldEvent};

impl Tables {
    /// One event: it is made, has to wait, or is refused, and then changes nothing.
    pub(crate) fn step(&mut self, event: &WorldEvent) -> Result<Reply, Refusal>
        ensures { IsStep event.now self.old self.new result }
    {
        match *event {
            WorldEvent::Phaser(phaser, step) => self.step_on_phaser(PhaserNumber::of(phaser), step),
            WorldEvent::Finish(finish, step) => self.step_in_finish(FinishNumber::of(finish), step),
            WorldEvent::Begin(task, begun) => self.step_begin(TaskNumber::of(task), begun),
            WorldEvent::Refuse(task, tried, number) => self.step_refuse(
                TaskNumber::of(task),
                tried,
                number,
            ),
            WorldEvent::Fail(task, number) => self.step_fail(TaskNumber::of(task), number),
        }
    }

    /// The same of an event as a trace lends it; no event of the world is made of it, which would be
    /// as large as the largest of its kinds.
    pub(crate) fn step_traced(&mut self, event: EventView<'_>) -> Result<Reply, Refusal>
        ensures { IsStep (event_of (viewed event.entry)) self.old self.new result }
    {
        match event {
            EventView::Phaser(phaser, step) => self.step_short(PhaserNumber::of(phaser), step),
            EventView::Finish(finish, step) => self.step_in_finish(FinishNumber::of(finish), step),
            EventView::Begin(task, act) => self.step_begin(TaskNumber::of(task), act.act()),
            EventView::Fail(task, number) => self.step_fail(TaskNumber::of(task), number),
            EventView::Long(event) => self.step_long(event),
        }
    }

    /// A long event, where it stands.
    fn step_long(&mut self, event: &LargeEvent) -> Result<Reply, Refusal>
        ensures { IsStep (event_of (long_event event.now)) self.old self.new result }
    {
        match *event {
            LargeEvent::Make(phaser, task, mode, terms) => self.step_make(
                PhaserNumber::of(phaser),
                TaskNumber::of(task),
                mode,
                terms,
            ),
            LargeEvent::Async(task, child, pairs) => {
                self.step_begin(TaskNumber::of(task), Begun::Async(child, pairs))
            }
            LargeEvent::Refuse(task, tried, number) => self.step_refuse(
                TaskNumber::of(task),
                tried,
                number,
            ),
        }
    }

    /// A short step, handed on as it is kept: a step made of it would be taken apart again.
    fn step_short(&mut self, phaser: PhaserNumber, step: ShortStep) -> Result<Reply, Refusal>
        ensures { IsStep (WorldEvent.Phaser phaser (step_of (short_step step))) self.old self.new result }
    {
        match step {
            ShortStep::Reg(parent, child, mode) => self.step_register(
                phaser,
                TaskNumber::of(parent),
                TaskNumber::of(child),
                mode,
            ),
            ShortStep::Sig(task, number) => self.step_signal(phaser, TaskNumber::of(task), number),
            ShortStep::Claim(task) => self.step_claim(phaser, TaskNumber::of(task)),
            ShortStep::Did(task) => self.step_report(phaser, TaskNumber::of(task)),
            ShortStep::Pass(task) => self.step_pass(phaser, TaskNumber::of(task)),
            ShortStep::Send(task, accumulator, value) => {
                self.step_send(phaser, TaskNumber::of(task), accumulator, value)
            }
            ShortStep::Saw(accumulator, task, _) => self.step_look(
                phaser,
                TaskNumber::of(task),
                accumulator,
            ),
            ShortStep::SawNothing(task, accumulator) => self.step_look(
                phaser,
                TaskNumber::of(task),
                accumulator,
            ),
            ShortStep::Drop(task) => self.step_drop(phaser, TaskNumber::of(task)),
        }
    }

    fn step_on_phaser(&mut self, phaser: PhaserNumber, step: Step) -> Result<Reply, Refusal>
        ensures { IsStep (WorldEvent.Phaser phaser step) self.old self.new result }
    {
        match step {
            Step::Make(task, mode, terms) => self.step_make(
                phaser,
                TaskNumber::of(task),
                mode,
                terms,
            ),
            Step::Reg(parent, child, mode) => self.step_register(
                phaser,
                TaskNumber::of(parent),
                TaskNumber::of(child),
                mode,
            ),
            Step::Sig(task, number) => self.step_signal(phaser, TaskNumber::of(task), number),
            Step::Claim(task) => self.step_claim(phaser, TaskNumber::of(task)),
            Step::Did(task) => self.step_report(phaser, TaskNumber::of(task)),
            Step::Pass(task) => self.step_pass(phaser, TaskNumber::of(task)),
            Step::Send(task, accumulator, value) => {
                self.step_send(phaser, TaskNumber::of(task), accumulator, value)
            }
            Step::Look(task, accumulator) => self.step_look(
                phaser,
                TaskNumber::of(task),
                accumulator,
            ),
            Step::Drop(task) => self.step_drop(phaser, TaskNumber::of(task)),
        }
    }

    fn step_in_finish(&mut self, finish: FinishNumber, step: FinishEvent) -> Result<Reply, Refusal>
        ensures { IsStep (WorldEvent.Finish finish step) self.old self.new result }
    {
        match step {
            FinishEvent::Opened(task) => self.step_open(finish, TaskNumber::of(task)),
            FinishEvent::Spawned(child) => self.step_spawn(finish, TaskNumber::of(child)),
            FinishEvent::Ended(task) => self.step_end(finish, TaskNumber::of(task)),
            FinishEvent::Shut => self.step_shut(finish),
        }
    }
}
