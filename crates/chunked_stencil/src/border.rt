//! A border between two pieces: a phaser of their two tasks, by which each sends the other its
//! cell.
ghost use Rattle.std.specs.Prelude.{◌≡◌, ◌≤◌, [], IfOk, IfSome};

use crate::bell::Bell;
use crate::cells::GREATEST;
use crossbeam_utils::CachePadded;
use long_locks::{LongCell, Out, PassAnswer, SignalAnswer};
use phase_model::{Bound, LongLook, Look, Op, Ops};
use phase_modes::{Mode, Refusal};
use phaser_core::LongTask;
use std::alloc::Global;
use std::sync::{Mutex, Wait};

/// The phaser of a border, behind a lock. While a task is parked there, its thread's bell stands
/// for it. There are as many borders as the job asks for, all of one type, so none has a name of its
/// own, and its calls give no receipts. Threads at other borders write no line of a processor's cache
/// that this one has.
pub type Border<'p> = CachePadded<Mutex<LongCell<&'p Bell>>>;

/// Which piece it is whose side of a border this is.
#[derive(Clone, Copy)]
pub enum Place {
    OnLeft,
    OnRight,
}

/// A task's side of a border, which has this number.
#[derive(Drop)]
pub struct Side {
    border: usize,
    place: Place,
    task: LongTask,
}

/// A thread as its tasks' calls need it: the borders, its bell, and the bells of the tasks that a call
/// has freed.
#[derive(Drop)]
pub struct Caller<'a, 'p, R: Wait> {
    rt: &'a R,
    borders: &'a [Border<'p>],
    bell: &'p Bell,
    out: Out<&'p Bell>,
    ghost awake: { out ≡ [] },
}

/// A border that nobody has made yet, with an accumulator for the cell on its left and one for the
/// cell on its right. Of the one cell that is sent for a phase the least is that cell, and a phase
/// without one is seen as nothing.
pub fn new_border<'p>(alloc: Global) -> Result<Border<'p>, Refusal> {
    let mut ops = Ops::none();
    ops.push(Op::Least);
    ops.push(Op::Least);
    // Neither comes so far ahead of the other that a bound of 2 would hold him.
    match Bound::of(2) {
        Some(bound) => {
            let cell = LongCell::new(alloc, ops, bound)?;
            Ok(CachePadded::new(Mutex::new(cell)))
        }
        None => Err(Refusal::NotNow),
    }
}

/// Wakes the threads of the tasks that a call has freed.
fn wake(out: &mut Out<&Bell>)
    ensures { out.new ≡ [] }
{
    while let Some(bell) = out.take() {
        bell.ring();
    }
}

/// The cell that was seen. `NotNow` if the neighbour has left, and sent none.
fn cell_of(look: Result<LongLook, Refusal>) -> Result<Option<u32>, Refusal>
    ensures { IfOk result (λ seen. IfSome seen (λ cell. cell ≤ 1000000)) }
{
    let Look::Value(value) = look? else {
        return Err(Refusal::NotNow);
    };
    match u32::try_from(value) {
        Ok(cell) if cell <= GREATEST => Ok(Some(cell)),
        _ => Err(Refusal::NotNow),
    }
}

impl Place {
    /// The accumulator of the cell that it sends.
    fn sends(self) -> u8 {
        match self {
            Place::OnLeft => 0,
            Place::OnRight => 1,
        }
    }

    /// The accumulator of its neighbour's cell.
    fn sees(self) -> u8 {
        match self {
            Place::OnLeft => 1,
            Place::OnRight => 0,
        }
    }
}

impl<'a, 'p, R: Wait> Caller<'a, 'p, R> {
    pub fn new(
        rt: &'a R,
        alloc: Global,
        borders: &'a [Border<'p>],
        bell: &'p Bell,
    ) -> Result<Caller<'a, 'p, R>, Refusal> {
        let out = Out::new(alloc)?;
        Ok(Caller {
            rt,
            borders,
            bell,
            out,
        })
    }
}

impl Side {
    /// Both sides of the border of this number, which nobody has made yet, that of the piece on its
    /// left first.
    pub fn both<R: Wait>(rt: &R, number: usize, border: &Border) -> Result<(Side, Side), Refusal> {
        let mut phaser = border.lock(rt);
        let on_left = phaser.make(Mode::SigWait)?;
        let on_right = phaser.register(on_left, Mode::SigWait)?;
        let left = Side {
            border: number,
            place: Place::OnLeft,
            task: on_left,
        };
        let right = Side {
            border: number,
            place: Place::OnRight,
            task: on_right,
        };
        Ok((left, right))
    }

    /// The task sends its cell for the phase that goes on, and signals: the bound never holds it.
    pub fn show<R: Wait>(&self, me: &mut Caller<R>, cell: u32) -> Result<(), Refusal>
        requires { cell ≤ 1000000 }
    {
        let borders = me.borders;
        let Some(border) = borders.get(self.border) else {
            return Err(Refusal::NotRegistered);
        };
        let mut phaser = border.lock(me.rt);
        phaser.send(self.task, self.place.sends(), cell as i32)?;
        let answer = phaser.signal(&mut me.out, self.task, None, me.bell);
        drop(phaser);
        wake(&mut me.out);
        match answer {
            SignalAnswer::Signalled(_) => Ok(()),
            SignalAnswer::Parked => Err(Refusal::NotNow),
            SignalAnswer::Refused(_, refusal) => Err(refusal),
        }
    }

    /// The task asks to end its turn. What it then sees of its neighbour; none if it is parked.
    fn ask<R: Wait>(&self, me: &mut Caller<R>) -> Result<Option<u32>, Refusal>
        ensures { IfOk result (λ seen. IfSome seen (λ cell. cell ≤ 1000000)) }
    {
        let borders = me.borders;
        let Some(border) = borders.get(self.border) else {
            return Err(Refusal::NotRegistered);
        };
        let mut phaser = border.lock(me.rt);
        let answer = phaser.pass(&mut me.out, self.task, me.bell);
        let seen = match answer {
            PassAnswer::Passed(_, _) => cell_of(phaser.look(self.task, self.place.sees())),
            PassAnswer::Parked => Ok(None),
            PassAnswer::Claimed(_, _) => Err(Refusal::NotNow),
            PassAnswer::Refused(_, refusal) => Err(refusal),
        };
        drop(phaser);
        wake(&mut me.out);
        seen
    }

    /// The task ends its turn: the thread waits until the neighbour has signalled. The cell that
    /// the neighbour has sent for the phase that has ended.
    pub fn see<R: Wait>(&self, me: &mut Caller<R>) -> Result<u32, Refusal>
        ensures { IfOk result (λ cell. cell ≤ 1000000) }
    {
        for _ in me.rt.forever() {
            match self.ask(me)? {
                Some(cell) => return Ok(cell),
                None => me.bell.wait(me.rt),
            }
        }
        unreachable!()
    }

    /// The task leaves: its neighbour waits for it no longer.
    pub fn leave<R: Wait>(&self, me: &mut Caller<R>) {
        let borders = me.borders;
        if let Some(border) = borders.get(self.border) {
            let _left = border.lock(me.rt).leave(&mut me.out, self.task);
            wake(&mut me.out);
        }
    }
}
