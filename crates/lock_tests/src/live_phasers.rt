//! Phasers that come and go: each call of their table; a slot that is used again; all slots taken; and
//! two threads.
ghost use Rattle.std.specs.Prelude.{◌≡◌, ◌<◌, ℕ, [], true, All, IfOk, IfSome, slice_get, vec_len};

use crate::asserted::equal;
use live_tables::{At, LivePhasers, SlotFront, SlotLogs, SlotNoted, new_slot_logs};
use long_locks::{Out, PassAnswer, SignalAnswer};
use phase_model::{Bound, Look, Op, Ops};
use phase_modes::{Mode, Refusal};
use phaser_core::{LongTask, Phase};
use std::alloc::Global;
use std::marker::Brand;
use std::process::Abort;
use std::sync::Wait;
use std::test::Fail;
use std::thread;
use std::thread::Threads;
use told_history::Whole;

/// How a pass or a signal ended. The items are told apart by their numbers.
#[derive(Clone, Copy, Debug, PartialEq, Eq)]
enum Ended {
    Signalled(u32),
    Passed(u32, Phase),
    Claimed(u32, u32),
    Parked,
    Refused(u32, Refusal),
}

/// The single that both tasks propose.
const SINGLE: u32 = 5;

/// The operator of each test's phasers.
fn one_sum() -> Ops {
    let mut ops = Ops::none();
    ops.push(Op::Sum);
    ops
}

/// Their bound.
fn two() -> Result<Bound, Refusal> {
    Bound::of(2).ok_or(Refusal::NotNow)
}

/// A phaser of a table, and what was seen of its slot.
#[derive(Drop)]
struct Seen<'a, J: SlotLogs> {
    phasers: &'a LivePhasers<u32, J>,
    at: At,
    me: SlotFront,
    ghost place: { at.slot < phasers.now.slots },
    ghost log: { me.log ≡ J.slots at.slot },
}

impl<'a, J: SlotLogs> Seen<'a, J> {
    /// A new phaser with one sum, whose maker, task 0, has this mode.
    fn open<R: Wait>(
        rt: &R,
        alloc: Global,
        phasers: &'a LivePhasers<u32, J>,
        mode: Mode,
    ) -> Result<Seen<'a, J>, Refusal> {
        let (at, me, _maker) = phasers.open(rt, alloc, one_sum(), two()?, mode)?;
        Ok(Seen { phasers, at, me })
    }

    /// The same phaser, for another task.
    fn again(&mut self) -> Seen<'a, J> {
        Seen {
            phasers: self.phasers,
            at: self.at,
            me: self.me.again(),
        }
    }

    fn register<R: Wait>(
        &mut self,
        rt: &R,
        parent: LongTask,
        mode: Mode,
    ) -> Result<LongTask, Refusal> {
        self.phasers
            .register(rt, self.at, &mut self.me, parent, mode)
    }

    fn send<R: Wait>(&mut self, rt: &R, task: LongTask, value: i32) -> Result<(), Refusal> {
        self.phasers.send(rt, self.at, &mut self.me, task, 0, value)
    }

    fn look<R: Wait>(&mut self, rt: &R, task: LongTask) -> Result<Look<i128>, Refusal> {
        self.phasers.look(rt, self.at, &mut self.me, task, 0)
    }

    /// The task signals, with this item. The item of whom this wakes too.
    fn signal<R: Wait>(
        &mut self,
        rt: &R,
        alloc: Global,
        task: LongTask,
        proposed: Option<u32>,
        item: u32,
    ) -> Result<(Ended, Option<u32>), Refusal> {
        let mut out = Out::new(alloc)?;
        let answer = self
            .phasers
            .signal(rt, self.at, &mut self.me, &mut out, task, proposed, item);
        let ended = match answer {
            SignalAnswer::Signalled(item) => Ended::Signalled(item),
            SignalAnswer::Parked => Ended::Parked,
            SignalAnswer::Refused(item, refusal) => Ended::Refused(item, refusal),
        };
        Ok((ended, out.take()))
    }

    /// The task asks to pass, with this item.
    fn pass<R: Wait>(
        &mut self,
        rt: &R,
        alloc: Global,
        task: LongTask,
        item: u32,
    ) -> Result<Ended, Refusal> {
        let mut out = Out::new(alloc)?;
        let answer = self
            .phasers
            .pass(rt, self.at, &mut self.me, &mut out, task, item);
        match answer {
            PassAnswer::Passed(item, phase) => Ok(Ended::Passed(item, phase)),
            PassAnswer::Claimed(item, number) => Ok(Ended::Claimed(item, number)),
            PassAnswer::Parked => Ok(Ended::Parked),
            PassAnswer::Refused(item, refusal) => Ok(Ended::Refused(item, refusal)),
        }
    }

    /// The task reports its single done. The item of whom this wakes.
    fn single_done<R: Wait>(
        &mut self,
        rt: &R,
        alloc: Global,
        task: LongTask,
    ) -> Result<Option<u32>, Refusal> {
        let mut out = Out::new(alloc)?;
        self.phasers
            .single_done(rt, self.at, &mut self.me, &mut out, task)?;
        Ok(out.take())
    }

    /// The task leaves. Whether it was the last one.
    fn leave<R: Wait>(&mut self, rt: &R, alloc: Global, task: LongTask) -> Result<bool, Refusal> {
        let mut out = Out::new(alloc)?;
        self.phasers
            .leave(rt, self.at, &mut self.me, &mut out, task)
    }
}

/// A table of so many slots.
fn table<J: SlotLogs>(
    alloc: Global,
    logs: Vec<Whole<SlotNoted>>,
) -> Result<LivePhasers<u32, J>, Refusal>
    requires few { vec_len logs < 4294967296 }
    requires names { (i : ℕ) → IfSome (slice_get logs.items i) (λ w. w.name ≡ J.slots i) }
    requires empty { All (λ w. w.items ≡ []) logs.items }
    ensures slots { IfOk result (λ t. t.slots ≡ vec_len logs) }
{
    LivePhasers::new(alloc, logs)
}

/// The calls of two tasks on a phaser of a table with two slots.
fn calls<J: SlotLogs, R: Wait + Abort>(
    rt: &R,
    alloc: Global,
    logs: Vec<Whole<SlotNoted>>,
) -> Result<(), Refusal>
    requires few { vec_len logs ≡ 2 }
    requires names { (i : ℕ) → IfSome (slice_get logs.items i) (λ w. w.name ≡ J.slots i) }
    requires empty { All (λ w. w.items ≡ []) logs.items }
{
    let phasers = table::<J>(alloc, logs)?;
    equal(rt, phasers.counts(rt).free, 2);
    let mut phaser = Seen::open(rt, alloc, &phasers, Mode::Single)?;
    equal(rt, phaser.at.number, 0);
    equal(rt, phasers.counts(rt).free, 1);
    equal(rt, phaser.register(rt, 0, Mode::Single), Ok(1));
    equal(rt, phaser.send(rt, 0, 3), Ok(()));
    equal(rt, phaser.send(rt, 1, 4), Ok(()));
    equal(
        rt,
        phaser.signal(rt, alloc, 0, Some(SINGLE), 10)?,
        (Ended::Signalled(10), None),
    );
    equal(rt, phaser.pass(rt, alloc, 0, 11)?, Ended::Parked);
    equal(
        rt,
        phaser.signal(rt, alloc, 1, Some(SINGLE), 20)?,
        (Ended::Signalled(20), Some(11)),
    );
    equal(
        rt,
        phaser.pass(rt, alloc, 0, 12)?,
        Ended::Claimed(12, SINGLE),
    );
    equal(rt, phaser.pass(rt, alloc, 1, 21)?, Ended::Parked);
    equal(rt, phaser.single_done(rt, alloc, 0)?, Some(21));
    equal(rt, phaser.pass(rt, alloc, 0, 13)?, Ended::Passed(13, 0));
    equal(rt, phaser.pass(rt, alloc, 1, 22)?, Ended::Passed(22, 0));
    equal(rt, phaser.look(rt, 0), Ok(Look::Value(7)));
    equal(rt, phaser.look(rt, 1), Ok(Look::Value(7)));
    equal(rt, phaser.leave(rt, alloc, 0), Ok(false));
    equal(rt, phaser.leave(rt, alloc, 0), Err(Refusal::NotRegistered));
    equal(rt, phasers.counts(rt).free, 1);
    equal(rt, phaser.leave(rt, alloc, 1), Ok(true));
    let counts = phasers.counts(rt);
    equal(rt, (counts.slots, counts.free), (2, 2));
    equal(rt, (counts.taken, counts.given_back), (1, 1));
    Ok(())
}

/// Each call of the table, by two tasks that send, propose a single, end their turn, look and leave.
#[test]
fn each_call_of_the_table(rt: HostRuntime) -> Result<(), Fail> {
    calls::<Brand, HostRuntime>(&rt, rt.alloc(), new_slot_logs(rt.alloc(), 2)?)?;
    Ok(())
}

/// In the one slot of a table three phasers come and go. Each begins anew, at phase 0, with its maker
/// alone: of what the ones before it were sent nothing is left.
fn comes_again<J: SlotLogs, R: Wait + Abort>(
    rt: &R,
    alloc: Global,
    logs: Vec<Whole<SlotNoted>>,
) -> Result<(), Refusal>
    requires few { vec_len logs ≡ 1 }
    requires names { (i : ℕ) → IfSome (slice_get logs.items i) (λ w. w.name ≡ J.slots i) }
    requires empty { All (λ w. w.items ≡ []) logs.items }
{
    let phasers = table::<J>(alloc, logs)?;
    for number in 0..3u64 {
        let mut phaser = Seen::open(rt, alloc, &phasers, Mode::SigWait)?;
        equal(rt, phaser.at, At { slot: 0, number });
        equal(rt, phaser.look(rt, 0), Err(Refusal::NoPhaseYet));
        equal(rt, phaser.send(rt, 1, 9), Err(Refusal::NotRegistered));
        equal(rt, phaser.send(rt, 0, number as i32), Ok(()));
        equal(
            rt,
            phaser.signal(rt, alloc, 0, None, 10)?,
            (Ended::Signalled(10), None),
        );
        equal(rt, phaser.pass(rt, alloc, 0, 11)?, Ended::Passed(11, 0));
        equal(rt, phaser.look(rt, 0), Ok(Look::Value(i128::from(number))));
        equal(rt, phaser.leave(rt, alloc, 0), Ok(true));
    }
    equal(rt, phasers.counts(rt).free, 1);
    Ok(())
}

/// A slot is used again, under numbers that rise.
#[test]
fn slot_used_again(rt: HostRuntime) -> Result<(), Fail> {
    comes_again::<Brand, HostRuntime>(&rt, rt.alloc(), new_slot_logs(rt.alloc(), 1)?)?;
    Ok(())
}

/// On a phaser that is gone each call is refused, while its slot is free and once another phaser is
/// there.
fn is_gone<J: SlotLogs, R: Wait + Abort>(
    rt: &R,
    alloc: Global,
    logs: Vec<Whole<SlotNoted>>,
) -> Result<(), Refusal>
    requires few { vec_len logs ≡ 1 }
    requires names { (i : ℕ) → IfSome (slice_get logs.items i) (λ w. w.name ≡ J.slots i) }
    requires empty { All (λ w. w.items ≡ []) logs.items }
{
    let nobody = Refusal::NotRegistered;
    let phasers = table::<J>(alloc, logs)?;
    let mut first = Seen::open(rt, alloc, &phasers, Mode::Single)?;
    equal(rt, first.leave(rt, alloc, 0), Ok(true));
    equal(rt, first.register(rt, 0, Mode::Sig), Err(nobody));
    equal(rt, first.send(rt, 0, 1), Err(nobody));
    equal(rt, first.look(rt, 0), Err(nobody));
    equal(
        rt,
        first.signal(rt, alloc, 0, None, 10)?,
        (Ended::Refused(10, nobody), None),
    );
    equal(
        rt,
        first.pass(rt, alloc, 0, 11)?,
        Ended::Refused(11, nobody),
    );
    equal(rt, first.single_done(rt, alloc, 0), Err(nobody));
    equal(rt, first.leave(rt, alloc, 0), Err(nobody));
    let mut second = Seen::open(rt, alloc, &phasers, Mode::Single)?;
    equal(rt, first.send(rt, 0, 1), Err(nobody));
    equal(rt, second.send(rt, 0, 1), Ok(()));
    equal(rt, phasers.counts(rt).free, 0);
    Ok(())
}

#[test]
fn phaser_is_gone(rt: HostRuntime) -> Result<(), Fail> {
    is_gone::<Brand, HostRuntime>(&rt, rt.alloc(), new_slot_logs(rt.alloc(), 1)?)?;
    Ok(())
}

/// With both slots taken no third phaser comes. One that is left makes room.
fn fills<J: SlotLogs, R: Wait + Abort>(
    rt: &R,
    alloc: Global,
    logs: Vec<Whole<SlotNoted>>,
) -> Result<(), Refusal>
    requires few { vec_len logs ≡ 2 }
    requires names { (i : ℕ) → IfSome (slice_get logs.items i) (λ w. w.name ≡ J.slots i) }
    requires empty { All (λ w. w.items ≡ []) logs.items }
{
    let phasers = table::<J>(alloc, logs)?;
    let mut first = Seen::open(rt, alloc, &phasers, Mode::Sig)?;
    let second = Seen::open(rt, alloc, &phasers, Mode::Wait)?;
    equal(rt, first.at.slot == second.at.slot, false);
    let third = Seen::open(rt, alloc, &phasers, Mode::Sig).map(|phaser| phaser.at);
    equal(rt, third, Err(Refusal::PhasersFull));
    equal(rt, first.leave(rt, alloc, 0), Ok(true));
    let third = Seen::open(rt, alloc, &phasers, Mode::Sig)?;
    let at = At {
        slot: first.at.slot,
        number: 1,
    };
    equal(rt, third.at, at);
    Ok(())
}

#[test]
fn all_slots_taken(rt: HostRuntime) -> Result<(), Fail> {
    fills::<Brand, HostRuntime>(&rt, rt.alloc(), new_slot_logs(rt.alloc(), 2)?)?;
    Ok(())
}

/// How often each thread comes and goes, and sends.
const TIMES: u64 = 200;

/// Opens a phaser and leaves it, time and again. How often each did.
fn come_and_go<J: SlotLogs, R: Wait>(
    rt: &R,
    alloc: Global,
    phasers: &LivePhasers<u32, J>,
) -> Result<u64, Refusal> {
    let mut gone = 0u64;
    for _time in 0..TIMES {
        let mut phaser = Seen::open(rt, alloc, phasers, Mode::SigWait)?;
        if phaser.leave(rt, alloc, 0)? {
            gone = gone.saturating_add(1);
        }
    }
    Ok(gone)
}

/// The task sends 1, time and again, and signals. Whether each was done.
fn send_all<J: SlotLogs, R: Wait>(
    rt: &R,
    alloc: Global,
    phaser: &mut Seen<'_, J>,
    task: LongTask,
) -> Result<(), Refusal> {
    for _time in 0..TIMES {
        phaser.send(rt, task, 1)?;
    }
    let _signalled = phaser.signal(rt, alloc, task, None, 0)?;
    Ok(())
}

/// One thread comes and goes in one slot of a table, while two tasks send to the phaser in the other,
/// each in a thread of its own.
fn in_threads<J: SlotLogs + Send + Sync, R: Abort + Threads + Wait + Sync>(
    rt: &R,
    alloc: Global,
    logs: Vec<Whole<SlotNoted>>,
) -> Result<(), Refusal>
    requires few { vec_len logs ≡ 2 }
    requires names { (i : ℕ) → IfSome (slice_get logs.items i) (λ w. w.name ≡ J.slots i) }
    requires empty { All (λ w. w.items ≡ []) logs.items }
{
    let phasers = table::<J>(alloc, logs)?;
    let shared = &phasers;
    let mut first = Seen::open(rt, alloc, shared, Mode::SigWait)?;
    equal(rt, first.register(rt, 0, Mode::SigWait), Ok(1));
    let mut second = first.again();
    let ours = &mut first;
    let theirs = &mut second;
    let (gone, sent) = thread::join(
        rt,
        move || come_and_go(rt, alloc, shared),
        move || {
            thread::join(
                rt,
                move || send_all(rt, alloc, ours, 0),
                move || send_all(rt, alloc, theirs, 1),
            )
        },
    );
    equal(rt, gone, Ok(TIMES));
    equal(rt, sent, (Ok(()), Ok(())));
    equal(rt, first.pass(rt, alloc, 0, 11)?, Ended::Passed(11, 0));
    equal(rt, second.pass(rt, alloc, 1, 21)?, Ended::Passed(21, 0));
    equal(rt, first.look(rt, 0), Ok(Look::Value(400)));
    equal(rt, second.look(rt, 1), Ok(Look::Value(400)));
    equal(rt, first.leave(rt, alloc, 1), Ok(false));
    equal(rt, second.leave(rt, alloc, 0), Ok(true));
    let counts = phasers.counts(rt);
    equal(
        rt,
        (counts.free, counts.taken, counts.given_back),
        (2, 201, 201),
    );
    Ok(())
}

#[test]
fn three_threads(rt: HostRuntime) -> Result<(), Fail> {
    in_threads::<Brand, HostRuntime>(&rt, rt.alloc(), new_slot_logs(rt.alloc(), 2)?)?;
    Ok(())
}
