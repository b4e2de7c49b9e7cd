//! What a report says of a task.
ghost use Rattle.std.specs.Prelude.{◌≡◌};

use super::KeptTask;
use world_model::TaskLine;

impl KeptTask {
    /// The line of the task with this number.
    pub fn row(&self, number: u32) -> TaskLine
        ensures { result ≡ record { task = number; refused = self.now.refused } }
    {
        TaskLine {
            task: number,
            refused: self.refused,
        }
    }
}
