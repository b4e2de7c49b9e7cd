//! Two tasks that signal each other on two phasers, without a world.
ghost use Rattle.std.specs.Prelude.{◌≡◌, true};
ghost use Rattle.phase_modes.specs.Limits.{limits_fit};

use phase_model::Ops;
use phase_modes::{Limits, Mode, Refusal};
use phaser_core::{Passing, PhaserState, Signalling};
use std::alloc::Global;

/// How many calls a turn of both tasks takes.
const TURN: u64 = 6;

/// The two tasks of a phaser.
#[derive(Clone, Copy)]
struct Ends {
    signaller: u32,
    waiter: u32,
}

/// A phaser with a signaller and a waiter, whose maker has left.
fn phaser(alloc: Global, limits: Limits, ends: Ends) -> Result<PhaserState, Refusal>
    requires { limits_fit limits ≡ true }
{
    let mut state = PhaserState::new(alloc, limits, Ops::none(), None)?;
    state.make(0, Mode::SigWait)?;
    state.register(0, ends.signaller, Mode::Sig)?;
    state.register(0, ends.waiter, Mode::Wait)?;
    state.drop_task(0)?;
    Ok(state)
}

/// 1 if the task signals.
fn signal(state: &mut PhaserState, task: u32) -> u64 {
    u64::from(matches!(state.signal(task, None), Ok(Signalling::Signalled)))
}

/// 1 if the task passes.
fn pass(state: &mut PhaserState, task: u32) -> u64 {
    u64::from(matches!(state.pass(task), Ok(Passing::Passed(_))))
}

/// A turn of both tasks, each call in the order in which it is done in a world. Returns how many
/// were done.
fn turn(first: &mut PhaserState, second: &mut PhaserState) -> u64 {
    let left = signal(first, 1).saturating_add(pass(first, 1));
    let right = signal(second, 2).saturating_add(pass(second, 2));
    let waits = pass(first, 2).saturating_add(pass(second, 1));
    left.saturating_add(right).saturating_add(waits)
}

/// Makes two phasers, and has both tasks go on for so many turns, or until the histories are full.
/// Returns how many calls were done in the turns.
pub fn calls_of_turns(alloc: Global, limits: Limits, turns: u32) -> Result<u64, Refusal>
    requires { limits_fit limits ≡ true }
{
    let there = Ends {
        signaller: 1,
        waiter: 2,
    };
    let back = Ends {
        signaller: 2,
        waiter: 1,
    };
    let mut first = phaser(alloc, limits, there)?;
    let mut second = phaser(alloc, limits, back)?;
    let mut calls: u64 = 0;
    for _ in 0..turns {
        let done = turn(&mut first, &mut second);
        calls = calls.saturating_add(done);
        if done < TURN {
            return Ok(calls);
        }
    }
    Ok(calls)
}
