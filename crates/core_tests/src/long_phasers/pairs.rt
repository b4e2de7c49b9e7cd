//! A phaser that stores no history and one that does, side by side, over many calls.
use super::drawing::Seats;
use super::*;
use crate::asserted::{equal, equal_at, holds_at};

/// Each reply that comes, numbers made 0. `RegsFull` needs 256 tasks, `HistoryFull` and `TasksFull`
/// need longer lives, and `RegisteredTwice` never comes.
const KINDS: [Reply; 17] = [
    Reply::Done,
    Reply::Phase(0),
    Reply::Claim(0),
    Reply::Saw(Look::Value(0)),
    Reply::Saw(Look::Nothing),
    Reply::NotYet,
    Reply::Refused(Refusal::NotNow),
    Reply::Refused(Refusal::NotRegistered),
    Reply::Refused(Refusal::MoreThanParent),
    Reply::Refused(Refusal::NoSignal),
    Reply::Refused(Refusal::NoWait),
    Reply::Refused(Refusal::NoSingle),
    Reply::Refused(Refusal::AlreadySignalled),
    Reply::Refused(Refusal::NotSignalled),
    Reply::Refused(Refusal::SingleMismatch),
    Reply::Refused(Refusal::NoAccumulator),
    Reply::Refused(Refusal::NoPhaseYet),
];

/// How many pairs there are, and how many calls are made on each.
const PAIRS: u32 = 3_000;

const CALLS: u32 = 200;

/// How often each kind came.
#[derive(Drop)]
struct Tally {
    counts: [u32; 17],
}

impl Tally {
    fn add(&mut self, reply: Reply) {
        let kind = without_number(reply);
        for (count, known) in self.counts.iter_mut().zip(KINDS.iter()) {
            if *known == kind {
                *count = count.saturating_add(1);
            }
        }
    }

    fn total(&self) -> u64 {
        let mut total: u64 = 0;
        for count in self.counts.iter() {
            total = total.saturating_add(u64::from(*count));
        }
        total
    }
}

/// Two phasers with the same accumulators and the same bound.
#[derive(Drop)]
struct Pair {
    stored: PhaserState,
    long: LongPhaser,
}

impl Pair {
    /// The stored one has room for more events and tasks than the calls make.
    fn new(alloc: Global, ops: Ops, bound: Bound) -> Result<Pair, Refusal> {
        Ok(Pair {
            stored: PhaserState::new(alloc, Limits::default(), ops, Some(bound))?,
            long: LongPhaser::new(alloc, ops, bound)?,
        })
    }

    /// Makes one call on both, which reply alike.
    fn step(&mut self, rt: &impl Abort, call: Call) -> Reply {
        let wanted = self.stored.apply(call);
        replies(rt, &mut self.long, call, wanted);
        wanted
    }

    /// Both say the same of each task, and of the first phases.
    fn agree(&self, rt: &impl Abort, tasks: u32) {
        for task in 0..tasks {
            equal_at(
                rt,
                ("task", task),
                self.long.registration(u64::from(task)),
                self.stored.registration(task).map(widened),
            );
        }
        for phase in 0..64 {
            equal_at(
                rt,
                ("phase", phase),
                self.long.closed(u64::from(phase)),
                self.stored.closed(phase),
            );
        }
    }
}

/// The same registration with a phase of 64 bits.
fn widened(reg: Reg) -> LongReg {
    LongReg {
        mode: reg.mode,
        phase: u64::from(reg.phase),
        ahead: reg.ahead,
    }
}

/// Whether the call registers a task, if it is done.
fn is_registration(call: Call) -> bool {
    matches!(&call, Call::Make(_, _) | Call::Register(_, _, _))
}

/// Makes the calls on both.
fn call_both(rt: &impl Abort, pair: &mut Pair, dice: &mut Dice, tally: &mut Tally) {
    let mut seats = Seats::new();
    for _ in 0..CALLS {
        let call = seats.call(dice, &pair.long);
        let reply = pair.step(rt, call);
        if is_registration(call) && reply == Reply::Done {
            seats.seat(&pair.long);
        }
        tally.add(reply);
    }
    pair.agree(rt, seats.next());
}

/// The bound of a pair: 1 to 3.
fn bound_of(pair: u32) -> Result<Bound, Refusal> {
    Bound::of(1 + pair % 3).ok_or(Refusal::NotNow)
}

/// Every kind came, and each of the calls was of one.
fn all_came(rt: &impl Abort, tally: &Tally) {
    for (count, kind) in tally.counts.iter().zip(KINDS.iter()) {
        holds_at(rt, ("none of", kind), *count > 0);
    }
    equal(rt, tally.total(), 600_000);
}

#[test]
fn both_reply_alike(rt: HostRuntime) -> Result<(), Fail> {
    let mut dice = Dice::new();
    let mut tally = Tally { counts: [0; 17] };
    for number in 0..PAIRS {
        let ops = first_ops((number % 5) as usize);
        let mut pair = Pair::new(rt.alloc(), ops, bound_of(number)?)?;
        call_both(&rt, &mut pair, &mut dice, &mut tally);
    }
    all_came(&rt, &tally);
    Ok(())
}
