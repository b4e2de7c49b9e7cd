//! Four tasks of one phaser, each in a thread of its own, that meet in phase after phase.
ghost use Rattle.std.specs.Prelude.{◌≡◌, [], Some};

use crate::pair::{make, register};
use crate::turn::Player;
use long_locks::{Front, LongLock, Naming};
use phase_model::{Bound, Op, Ops};
use phase_modes::Refusal;
use phaser_core::Phase;
use std::alloc::Global;
use std::marker::Brand;
use std::sync::Wait;
use std::thread;
use std::thread::{Parker, Threads};
use told_history::{LongEvent, Whole};

const THREADS: usize = 4;

/// A phaser's maker and the children that it registers, each with a parker: as many as there are.
fn players<'a, 'p, J: Naming, R: Wait>(
    rt: &'a R,
    alloc: Global,
    lock: &'a LongLock<J, &'p Parker>,
    parkers: &'p [Parker; THREADS],
    front: Front<J>,
) -> Result<Vec<Player<'a, 'p, J, R>>, Refusal> {
    let mut front = front;
    let maker = make(rt, lock, &mut front)?;
    let mut players = Vec::new(alloc);
    players.push(Player::new(rt, alloc, lock, maker, &parkers[0], front.again())?)?;
    for parker in parkers.iter().skip(1) {
        let task = register(rt, lock, &mut front, maker)?;
        players.push(Player::new(rt, alloc, lock, task, parker, front.again())?)?;
    }
    Ok(players)
}

/// Each task in a thread of its own, for so many phases. How often one saw the expected sum.
fn meet_all<J: Naming + Send + Sync, R: Threads + Wait + Sync>(
    rt: &R,
    alloc: Global,
    players: Vec<Player<J, R>>,
    phases: Phase,
) -> anyhow::Result<u64> {
    thread::scope(thread::scope_env(), rt, |scope| -> anyhow::Result<u64> {
        let mut threads = Vec::new(alloc);
        for player in players {
            threads.push(scope.spawn(move || player.play(phases))?)?;
        }
        let mut right = 0u64;
        for thread in threads {
            right = right.saturating_add(thread.join(rt)?);
        }
        Ok(right)
    })
}

/// The threads meet at a new phaser of this name.
fn named<J: Naming + Send + Sync, R: Threads + Wait + Sync>(
    rt: &R,
    alloc: Global,
    ops: Ops,
    bound: Bound,
    whole: Whole<LongEvent>,
    phases: Phase,
) -> anyhow::Result<u64>
    requires name { whole.name ≡ J.log }
    requires empty { whole.items ≡ [] }
    requires terms { J.terms ≡ record { ops = ops; bound = Some bound } }
{
    let parkers = [Parker::new(), Parker::new(), Parker::new(), Parker::new()];
    let (lock, front) = LongLock::<J, &Parker>::new(alloc, ops, bound, whole)?;
    let players = players(rt, alloc, &lock, &parkers, front)?;
    meet_all(rt, alloc, players, phases)
}

/// Four threads meet at a new phaser with one sum, for so many phases. How often one of them saw the
/// expected sum.
pub fn run<R: Threads + Wait + Sync>(
    rt: &R,
    alloc: Global,
    bound: Bound,
    phases: Phase,
) -> anyhow::Result<u64> {
    let mut one_sum = Ops::none();
    one_sum.push(Op::Sum);
    named::<Brand, R>(rt, alloc, one_sum, bound, Whole::new(), phases)
}
