//! The state and the slow phaser side by side, over many calls.
use super::generator::call;
use super::peer::expected;
use super::*;
use crate::asserted::{equal, equal_at, holds_at};
use crate::drawn::without_number;

/// Which call it is. A signal with a number proposes.
#[derive(Clone, Copy, Debug, PartialEq, Eq)]
enum Verb {
    Make,
    Register,
    Signal,
    Propose,
    Pass,
    SingleDone,
    Send,
    Look,
    DropTask,
}

/// Every call with every kind of reply that it can have, numbers made 0, but for `Memory`.
const KINDS: [(Verb, Reply); 48] = [
    (Verb::Make, Reply::Done),
    (Verb::Make, Reply::Refused(Refusal::NotNow)),
    (Verb::Make, Reply::Refused(Refusal::TasksFull)),
    (Verb::Register, Reply::Done),
    (Verb::Register, Reply::Refused(Refusal::NotRegistered)),
    (Verb::Register, Reply::Refused(Refusal::MoreThanParent)),
    (Verb::Register, Reply::Refused(Refusal::TasksFull)),
    (Verb::Register, Reply::Refused(Refusal::RegisteredTwice)),
    (Verb::Register, Reply::Refused(Refusal::RegsFull)),
    (Verb::Register, Reply::Refused(Refusal::HistoryFull)),
    (Verb::Signal, Reply::Done),
    (Verb::Signal, Reply::Refused(Refusal::NotRegistered)),
    (Verb::Signal, Reply::Refused(Refusal::NoSignal)),
    (Verb::Signal, Reply::Refused(Refusal::AlreadySignalled)),
    (Verb::Signal, Reply::NotYet),
    (Verb::Signal, Reply::Refused(Refusal::HistoryFull)),
    (Verb::Propose, Reply::Done),
    (Verb::Propose, Reply::Refused(Refusal::NotRegistered)),
    (Verb::Propose, Reply::Refused(Refusal::NoSignal)),
    (Verb::Propose, Reply::Refused(Refusal::NoSingle)),
    (Verb::Propose, Reply::Refused(Refusal::AlreadySignalled)),
    (Verb::Propose, Reply::Refused(Refusal::SingleMismatch)),
    (Verb::Propose, Reply::NotYet),
    (Verb::Propose, Reply::Refused(Refusal::HistoryFull)),
    (Verb::Pass, Reply::Phase(0)),
    (Verb::Pass, Reply::Claim(0)),
    (Verb::Pass, Reply::NotYet),
    (Verb::Pass, Reply::Refused(Refusal::NotRegistered)),
    (Verb::Pass, Reply::Refused(Refusal::NotSignalled)),
    (Verb::Pass, Reply::Refused(Refusal::HistoryFull)),
    (Verb::SingleDone, Reply::Done),
    (Verb::SingleDone, Reply::Refused(Refusal::NotRegistered)),
    (Verb::SingleDone, Reply::Refused(Refusal::NotNow)),
    (Verb::Send, Reply::Done),
    (Verb::Send, Reply::Refused(Refusal::NotRegistered)),
    (Verb::Send, Reply::Refused(Refusal::NoSignal)),
    (Verb::Send, Reply::Refused(Refusal::NoAccumulator)),
    (Verb::Send, Reply::Refused(Refusal::HistoryFull)),
    (Verb::Look, Reply::Saw(Look::Value(0))),
    (Verb::Look, Reply::Saw(Look::Nothing)),
    (Verb::Look, Reply::Refused(Refusal::NotRegistered)),
    (Verb::Look, Reply::Refused(Refusal::NoWait)),
    (Verb::Look, Reply::Refused(Refusal::NoAccumulator)),
    (Verb::Look, Reply::Refused(Refusal::NoPhaseYet)),
    (Verb::Look, Reply::Refused(Refusal::HistoryFull)),
    (Verb::DropTask, Reply::Done),
    (Verb::DropTask, Reply::Refused(Refusal::NotRegistered)),
    (Verb::DropTask, Reply::Refused(Refusal::NotNow)),
];

fn verb_of(call: Call) -> Verb {
    match call {
        Call::Make(_, _) => Verb::Make,
        Call::Register(_, _, _) => Verb::Register,
        Call::Signal(_, None) => Verb::Signal,
        Call::Signal(_, Some(_)) => Verb::Propose,
        Call::Pass(_) => Verb::Pass,
        Call::SingleDone(_) => Verb::SingleDone,
        Call::Send(_, _, _) => Verb::Send,
        Call::Look(_, _) => Verb::Look,
        Call::Drop(_) => Verb::DropTask,
    }
}

/// How often each kind came.
#[derive(Drop)]
struct Tally {
    counts: [u32; 48],
}

impl Tally {
    fn add(&mut self, call: Call, reply: Reply) {
        let kind = (verb_of(call), without_number(reply));
        for (count, known) in self.counts.iter_mut().zip(KINDS.iter()) {
            if *known == kind {
                *count = count.saturating_add(1);
            }
        }
    }

    /// How many replies were of one of the kinds.
    fn total(&self) -> u64 {
        let mut total: u64 = 0;
        for count in self.counts.iter() {
            total = total.saturating_add(u64::from(*count));
        }
        total
    }
}

/// Makes one call on both, which reply alike and add the same event.
fn step(rt: &impl Abort, state: &mut PhaserState, peer: &mut History, call: Call) -> Reply {
    let (wanted, event) = expected(peer, call);
    equal_at(rt, call, state.apply(call), wanted);
    if let Some(event) = event {
        assert!(rt; peer.len() < peer.limits().history);
        peer.add(event);
    }
    equal_at(rt, call, state.history().len(), peer.len());
    holds_at(
        rt,
        call,
        state.history().events().last() == peer.events().last(),
    );
    wanted
}

/// The limits of a phaser: a third have room for all calls, and a third for few.
fn limits_of(phaser: u32) -> Limits {
    let history = match phaser % 3 {
        0 => 4 + phaser % 7,
        1 => 24,
        _ => 160,
    };
    Limits {
        history,
        regs: 1 + phaser % 6,
        tasks: 4 + phaser % 2,
        ..Limits::default()
    }
}

/// The bound of a phaser: half have 1, and a sixth has 2.
fn bound_of(phaser: u32) -> Option<Bound> {
    match phaser % 6 {
        1 | 3 | 5 => Bound::of(1),
        4 => Bound::of(2),
        _ => None,
    }
}

/// Makes 120 calls on both, which end with the same events.
fn call_both(
    rt: &impl Abort,
    state: &mut PhaserState,
    peer: &mut History,
    dice: &mut Dice,
    tally: &mut Tally,
) {
    for _ in 0..120 {
        let call = call(dice, peer);
        let reply = step(rt, state, peer, call);
        tally.add(call, reply);
    }
    assert!(rt; state.history().events() == peer.events());
    agrees_with_plain(rt, state);
}

/// Makes the calls on a fresh phaser and on its peer.
fn play_both(
    rt: &impl Abort,
    alloc: Global,
    phaser: u32,
    dice: &mut Dice,
    tally: &mut Tally,
) -> Result<(), Refusal> {
    let limits = limits_of(phaser);
    let ops = first_ops((phaser % 5) as usize);
    assert!(rt; limits.fits());
    let mut peer = History::new(alloc, limits, ops, bound_of(phaser))?;
    let mut state = fresh(alloc, limits, ops, bound_of(phaser))?;
    call_both(rt, &mut state, &mut peer, dice, tally);
    Ok(())
}

/// Every kind came, and each of the calls was of one.
fn all_came(rt: &impl Abort, tally: &Tally) {
    for (count, kind) in tally.counts.iter().zip(KINDS.iter()) {
        holds_at(rt, ("none of", kind), *count > 0);
    }
    equal(rt, tally.total(), 2_880);
}

#[test]
fn side_by_side(rt: HostRuntime) -> Result<(), Fail> {
    let mut dice = Dice::new();
    let mut tally = Tally { counts: [0; 48] };
    for phaser in 0..24 {
        play_both(&rt, rt.alloc(), phaser, &mut dice, &mut tally)?;
    }
    all_came(&rt, &tally);
    Ok(())
}
