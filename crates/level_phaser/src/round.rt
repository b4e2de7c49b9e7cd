//! A round: in one call what was sent is told, and each of these tasks signals and passes.
ghost use Rattle.std.specs.Prelude.{◌≡◌, ◌+◌, ◌∷◌, ◌++◌, ◌<◌, ◌≤◌, length, true, None, map, is_ok};
ghost use Rattle.phase_model.specs.declared.call.Call.TheVariants.{Signal as signal, Pass as pass};
ghost use Rattle.level_phaser.specs.Rounds.{send_of, ends_turn, is_sent, with_call, with_calls, round_of, round};

use phase_model::{LongPassing, Passing, Signalling};
use phase_modes::Refusal;
use phaser_core::{LongPhaser, LongTask, Phase};

/// A value that a task sent: `paldwosk_given_send`.
#[repr(C)]
#[derive(Clone, Copy, Debug, Drop)]
pub struct GivenSend {
    pub task: u64,
    pub value: i32,
    pub accumulator: u8,
}

/// How far a round has come.
#[derive(Clone, Copy, Debug)]
pub struct RoundCourse {
    /// How many calls were made.
    pub made: u32,
    /// Whether each was answered as in a round.
    pub is_whole: bool,
}

fn ends_turn(phase: Phase, answer: Result<LongPassing, Refusal>) -> bool
    ensures { result ≡ ends_turn phase answer }
{
    match answer {
        Ok(Passing::Passed(passed)) => passed == phase,
        Ok(Passing::Claimed(_) | Passing::NotYet) | Err(_) => false,
    }
}

fn is_done(answer: Result<(), Refusal>) -> bool
    ensures { result ≡ is_ok answer }
{
    answer.is_ok()
}

fn is_signalled(answer: Result<Signalling, Refusal>) -> bool
    ensures { result ≡ is_sent answer }
{
    match answer {
        Ok(Signalling::Signalled) => true,
        Ok(Signalling::NotYet) | Err(_) => false,
    }
}

impl RoundCourse {
    /// One call more, that was answered so.
    fn and(self, is_of_round: bool) -> RoundCourse
        requires { self.made < 4294967295 }
        ensures made { result.made ≡ self.made + 1 }
        ensures whole { result.is_whole ≡ is_of_round }
    {
        RoundCourse {
            made: self.made + 1,
            is_whole: is_of_round,
        }
    }

    /// The value is sent.
    #[tactic(auto, using(crate::proofs::Rounds::ok_is_done))]
    fn send(self, state: &mut LongPhaser, sent: GivenSend, phase: Phase) -> RoundCourse
        requires { self.made < 4294967295 }
        ensures made { result.made ≤ self.made + 1 }
        ensures calls { round_of state.new.story result ≡ with_call phase (round_of state.old.story self) (send_of sent) }
        ensures next { state.new.next ≡ state.old.next }
    {
        if !self.is_whole {
            return self;
        }
        let answer = state.send(sent.task, sent.accumulator, sent.value);
        self.and(is_done(answer))
    }

    /// The task signals.
    #[tactic(auto, using(crate::proofs::Rounds::sent_is_done))]
    fn signal(self, state: &mut LongPhaser, task: LongTask, phase: Phase) -> RoundCourse
        requires { self.made < 4294967295 }
        ensures made { result.made ≤ self.made + 1 }
        ensures calls { round_of state.new.story result ≡ with_call phase (round_of state.old.story self) (signal task None) }
        ensures next { state.new.next ≡ state.old.next }
    {
        if !self.is_whole {
            return self;
        }
        let answer = state.signal(task, None);
        self.and(is_signalled(answer))
    }

    /// The task passes.
    fn pass(self, state: &mut LongPhaser, task: LongTask, phase: Phase) -> RoundCourse
        requires { self.made < 4294967295 }
        ensures made { result.made ≤ self.made + 1 }
        ensures calls { round_of state.new.story result ≡ with_call phase (round_of state.old.story self) (pass task) }
        ensures next { state.new.next ≡ state.old.next }
    {
        if !self.is_whole {
            return self;
        }
        let answer = state.pass(task);
        self.and(ends_turn(phase, answer))
    }
}

/// Each value is sent.
fn send_all(
    state: &mut LongPhaser,
    sends: &[GivenSend],
    phase: Phase,
    before: RoundCourse,
) -> RoundCourse
    requires { before.made + length sends.now ≤ 4294967295 }
    ensures calls { round_of state.new.story result
        ≡ with_calls phase (round_of state.old.story before) (map send_of sends.now) }
    ensures made { result.made ≤ before.made + length sends.now }
    ensures next { state.new.next ≡ state.old.next }
{
    let mut course = before;
    for sent in sends {
        course = course.send(state, *sent, phase);
    }
    course
}

/// Each task signals.
fn signal_all(
    state: &mut LongPhaser,
    tasks: &[LongTask],
    phase: Phase,
    before: RoundCourse,
) -> RoundCourse
    requires { before.made + length tasks.now ≤ 4294967295 }
    ensures calls { round_of state.new.story result
        ≡ with_calls phase (round_of state.old.story before) (map (λ t. signal t None) tasks.now) }
    ensures made { result.made ≤ before.made + length tasks.now }
    ensures next { state.new.next ≡ state.old.next }
{
    let mut course = before;
    for task in tasks {
        course = course.signal(state, *task, phase);
    }
    course
}

/// Each task passes.
fn pass_all(
    state: &mut LongPhaser,
    tasks: &[LongTask],
    phase: Phase,
    before: RoundCourse,
) -> RoundCourse
    requires { before.made + length tasks.now ≤ 4294967295 }
    ensures calls { round_of state.new.story result
        ≡ with_calls phase (round_of state.old.story before) (map (λ t. pass t) tasks.now) }
    ensures made { result.made ≤ before.made + length tasks.now }
    ensures next { state.new.next ≡ state.old.next }
{
    let mut course = before;
    for task in tasks {
        course = course.pass(state, *task, phase);
    }
    course
}

/// The round of this phase: what was sent, a signal of each task but the first, a signal and a pass
/// of the first, and a pass of each other; until one of these isn't answered as in a round.
#[tactic(auto, using(crate::proofs::Rounds::calls_in_parts))]
pub fn make_round(
    state: &mut LongPhaser,
    sends: &[GivenSend],
    tasks: &[LongTask],
    phase: Phase,
) -> RoundCourse
    requires sends { length sends.now ≤ 65536 }
    requires tasks { length tasks.now ≤ 256 }
    ensures calls { round_of state.new.story result
        ≡ round phase state.old.story (map send_of sends.now) tasks.now }
    ensures next { state.new.next ≡ state.old.next }
{
    let begun = RoundCourse {
        made: 0,
        is_whole: true,
    };
    let sent = send_all(state, sends, phase, begun);
    let Some((first, others)) = tasks.split_first() else {
        return sent;
    };
    let others_signalled = signal_all(state, others, phase, sent);
    let signalled = others_signalled.signal(state, *first, phase);
    let passed = signalled.pass(state, *first, phase);
    pass_all(state, others, phase, passed)
}
