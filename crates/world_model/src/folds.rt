//! What the accumulators of a phaser folded so far, phase by phase.
ghost use Rattle.std.specs.Prelude.{◌≡◌, ◌<◌, ◌≤◌, ◌+◌, ◌++◌, length, get_or, vec_capacity, vec_len, IfOk, IfErr, [], ℤ, pos, negsuc, ◌≤ℤ◌, ◌+ℤ◌};
ghost use Rattle.std.specs.Int.{int_min, int_max};
ghost use Rattle.phase_model.specs.Values.{fold, chosen_with};
ghost use Rattle.world_model.specs.Report.{folds_from};
ghost use Rattle.world_model.specs.inner.Folds.{blank_line, fold_with, sum_with, HasRoom, reached, place_of, value_sent, folds_noted, IsNotable};

use crate::{FoldLine, PhaserLines};
use phase_model::{Event, Look, Op, Ops};
use phase_modes::Refusal;
use std::alloc::Global;
use std::marker::Model;

/// A line for each phase and accumulator, phase by phase.
#[derive(Drop)]
pub(crate) struct FoldTable {
    pub(crate) ops: Ops,
    pub(crate) phases: u32,
    pub(crate) lines: Vec<FoldLine>,
}

impl Model for FoldTable {
    ghost use Rattle.world_model.specs.inner.Folds.{FoldState};

    ghost Value = { FoldState };

    ghost view = { λ t. record { ops = t.ops; phases = t.phases; lines = t.lines.items } };
}

impl FoldTable {
    /// No phase yet.
    pub(crate) fn new(alloc: Global, ops: Ops) -> FoldTable
        ensures { result ≡ record { ops = ops; phases = 0; lines = [] } }
    {
        FoldTable {
            ops,
            phases: 0,
            lines: Vec::new(alloc),
        }
    }

    /// What the phaser of this number is reported as.
    pub(crate) fn into_lines(self, phaser: u32) -> PhaserLines
        ensures { result ≡ record { phaser = phaser; phases = self.phases; folds = self.lines } }
    {
        let FoldTable {
            ops: _,
            phases,
            lines,
        } = self;
        PhaserLines {
            phaser,
            phases,
            folds: lines,
        }
    }

    /// Takes in an event of this phase, if it is of one.
    pub(crate) fn note(&mut self, event: Event, phase: Option<u32>) -> Result<(), Refusal>
        requires { IsNotable self.old event phase }
        ensures noted { IfOk result (λ _. self.new ≡ folds_noted event phase self.old) }
        ensures memory { IfErr result (λ r. r ≡ Refusal.Memory) }
    {
        let Some(phase) = phase else {
            return Ok(());
        };
        self.reach(phase)?;
        if let Event::Send(_, accumulator, value) = event {
            self.send(phase, accumulator, value);
        }
        Ok(())
    }

    /// Opens the phase, if it is the next.
    fn reach(&mut self, phase: u32) -> Result<(), Refusal>
        requires { self.old.phases < 65536 }
        ensures reached { IfOk result (λ _. self.new ≡ reached phase self.old) }
        ensures memory { IfErr result (λ r. r ≡ Refusal.Memory) }
    {
        if phase < self.phases {
            return Ok(());
        }
        let count = self.ops.len();
        let Ok(()) = self.lines.reserve(count) else {
            return Err(Refusal::Memory);
        };
        push_row(&mut self.lines, self.phases, self.ops.as_slice());
        self.phases += 1;
        Ok(())
    }

    /// Folds a value in.
    fn send(&mut self, phase: u32, accumulator: u8, value: i32)
        requires few { phase < 65536 }
        requires accumulator { accumulator < length self.old.ops }
        requires place { place_of self.old phase accumulator < length self.old.lines }
        requires room { HasRoom (get_or self.old.ops accumulator Op.Sum)
            (get_or self.old.lines (place_of self.old phase accumulator) blank_line).value }
        ensures { self.new ≡ value_sent phase accumulator value self.old }
    {
        let op = self.ops.as_slice()[accumulator as usize];
        let place = phase as usize * self.ops.len() + accumulator as usize;
        self.lines[place].value = fold_with(op, value, self.lines[place].value);
    }
}

#[tactic(auto, using(crate::proofs::FoldRows::row_pushed))]
/// The lines of a phase for which nothing was sent.
fn push_row(lines: &mut Vec<FoldLine>, phase: u32, ops: &[Op])
    requires few { length ops.now ≤ 4 }
    requires room { vec_len lines.old + length ops.now ≤ vec_capacity lines.old }
    ensures { lines.new.items ≡ lines.old.items ++ folds_from phase 0 ops.now [] }
{
    for accumulator in 0..ops.len() {
        lines.push_reserved(FoldLine {
            phase,
            acc: accumulator as u32,
            value: fold_of_none(ops[accumulator]),
        });
    }
}

/// What there is to see of no values.
fn fold_of_none(op: Op) -> Look
    ensures { result ≡ fold op [] }
{
    match op {
        Op::Sum => Look::Value(0),
        Op::Least | Op::Greatest => Look::Nothing,
    }
}

/// What there is to see with one value more.
fn fold_with(op: Op, value: i32, look: Look) -> Look
    requires { HasRoom op look }
    ensures { result ≡ fold_with op value look }
{
    match op {
        Op::Sum => sum_with(value, look),
        Op::Least => least_with(value, look),
        Op::Greatest => greatest_with(value, look),
    }
}

fn sum_with(value: i32, look: Look) -> Look
    requires { HasRoom Op.Sum look }
    ensures { result ≡ sum_with value look }
{
    match look {
        Look::Value(sum) => Look::Value(add(sum, value)),
        Look::Nothing => Look::Value(i64::from(value)),
    }
}

/// A sum and one value more.
fn add(sum: i64, value: i32) -> i64
    requires low { negsuc 1000000000000000 ≤ℤ sum }
    requires high { sum ≤ℤ pos 1000000000000000 }
    ensures { result ≡ sum +ℤ value }
{
    sum + i64::from(value)
}

fn least_with(value: i32, look: Look) -> Look
    ensures { result ≡ chosen_with int_min value look }
{
    match look {
        Look::Value(other) => Look::Value(i64::from(value).min(other)),
        Look::Nothing => Look::Value(i64::from(value)),
    }
}

fn greatest_with(value: i32, look: Look) -> Look
    ensures { result ≡ chosen_with int_max value look }
{
    match look {
        Look::Value(other) => Look::Value(i64::from(value).max(other)),
        Look::Nothing => Look::Value(i64::from(value)),
    }
}
