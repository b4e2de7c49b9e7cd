//! Bodies whose steps are told by a function.
ghost use Rattle.std.specs.Prelude.{◌≡◌};
ghost use Rattle.job_script.specs.declared.act.Answer as answers;
ghost use Rattle.trace_walk.specs.Walking.{Does};

use job_script::{Act, Answer, ScriptBody};

/// A body of which it is told what it does: a function of what it is and of what it hears, and of
/// nothing else. If a run steps it too, `go` is to be what its `step` gives, which no clause says.
pub trait Goes: Drop {
    /// What a task does that hears this, and what its body is after that.
    ghost next: { answers.Answer → Self → Does Self };

    /// The next act, after the answer to the one before.
    fn go(&mut self, heard: Answer) -> Act<Self>
        ensures does { result ≡ (next heard self.old).0 }
        ensures is { self.new ≡ (next heard self.old).1 };
}

impl<'p> Goes for ScriptBody<'p> {
    ghost use Rattle.trace_walk.specs.Walking.{script_next};

    ghost next = { script_next };

    fn go(&mut self, heard: Answer) -> Act<ScriptBody<'p>> {
        match self.step(heard) {
            Ok(act) => act,
            Err(_) => Act::End,
        }
    }
}
