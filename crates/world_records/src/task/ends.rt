//! What a task's record notes of its end, and of a finish that is shut.
ghost use Rattle.std.specs.Prelude.{◌≡◌, ◌<◌, length};
ghost use Rattle.world_records.specs.inner.FinishSteps.{end_noted, shut_noted};

use super::KeptTask;
use crate::Plan;
use phase_modes::{FinishNumber, TaskNumber};

impl KeptTask {
    /// Notes that it has ended.
    pub fn note_end(&mut self)
        ensures { self.new ≡ end_noted self.old }
    {
        self.plan = Plan::Idle;
        self.ended = true;
    }

    /// Notes that it shut this finish: if that was its innermost one, the one that it had open
    /// before is innermost now. The shut of finish 0 is the root's end.
    pub fn note_shut(&mut self, finish: FinishNumber, own: TaskNumber, outers: &[Option<u32>])
        requires { finish < length outers.now }
        ensures { self.new ≡ shut_noted outers.now finish own self.old }
    {
        match (self.plan, self.innermost) {
            (Plan::Ending(_), Some(_)) => {}
            _ => self.plan = Plan::Idle,
        }
        if self.innermost.is_some() {
            self.innermost = outers[finish.place()];
        }
        if finish.get() == 0 && own.get() == 0 {
            self.ended = true;
        }
    }
}
