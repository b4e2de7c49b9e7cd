//! What a caller asks of a run's trace by itself.

use std::alloc::Global;
use trace_model::Trace;

/// A question about a trace, which may be asked while the trace is replayed: so it is asked of any,
/// whether a world explains it or not.
pub trait Question {
    ghost use Rattle.trace_model.specs.Run.{Run};

    /// What it is answered.
    type Answer: Send + Drop;

    /// What the answer says of the trace: nothing if the question says nothing.
    ghost answers: { Self → Run → Self.Answer → Type 0 } = { λ _ _ _. Unit {0} };

    /// Asks it of this trace. It waits for nothing: if no thread can be made, it is asked after the
    /// replay.
    fn ask(&self, alloc: Global, trace: &Trace) -> Self::Answer
        ensures { answers self.now trace.now result };
}

/// Nothing is asked.
pub(crate) struct NoQuestion;

impl Question for NoQuestion {
    type Answer = ();

    fn ask(&self, _alloc: Global, _trace: &Trace) {}
}
