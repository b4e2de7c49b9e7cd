//! Whether two acts are the same, the numbers that they draw among it.
ghost use Rattle.std.specs.Prelude.{◌≡◌, ◌&&◌, ◌==◌};
ghost use Rattle.world_model.specs.Continuing.{same_mode, same_number};
ghost use Rattle.trace_walk.specs.Follows.{same_op, same_ops, same_terms, same_pairs, same_begun, same_act};

use phase_model::{Bound, Op, Terms};
use phase_modes::{Mode, Pair};
use world_model::{Begun, Tried};

fn is_same_mode(mode: Mode, other: Mode) -> bool
    ensures { result ≡ same_mode mode other }
{
    Mode::within(mode, other) && Mode::within(other, mode)
}

fn is_same_op(op: Op, other: Op) -> bool
    ensures { result ≡ same_op op other }
{
    match (op, other) {
        (Op::Sum, Op::Sum) | (Op::Least, Op::Least) | (Op::Greatest, Op::Greatest) => true,
        _ => false,
    }
}

fn are_same_ops(ops: &[Op], others: &[Op]) -> bool
    ensures { result ≡ same_ops ops.now others.now }
{
    if ops.len() != others.len() {
        return false;
    }
    for i in 0..ops.len() {
        if !is_same_op(ops[i], others[i]) {
            return false;
        }
    }
    true
}

fn is_same_bound(bound: Option<Bound>, other: Option<Bound>) -> bool
    ensures { result ≡ same_number bound other }
{
    match (bound, other) {
        (None, None) => true,
        (Some(bound), Some(other)) => bound.phases() == other.phases(),
        _ => false,
    }
}

fn are_same_terms(terms: &Terms, others: &Terms) -> bool
    ensures { result ≡ same_terms terms.now others.now }
{
    are_same_ops(terms.ops.as_slice(), others.ops.as_slice())
        && is_same_bound(terms.bound, others.bound)
}

/// Whether two pairs are the same.
pub(crate) fn is_same_pair(pair: Pair, other: Pair) -> bool
    ensures { result ≡ (pair.phaser == other.phaser && same_mode pair.mode other.mode) }
{
    pair.phaser == other.phaser && is_same_mode(pair.mode, other.mode)
}

fn are_same_pairs(pairs: &[Pair], others: &[Pair]) -> bool
    ensures { result ≡ same_pairs pairs.now others.now }
{
    if pairs.len() != others.len() {
        return false;
    }
    for i in 0..pairs.len() {
        if !is_same_pair(pairs[i], others[i]) {
            return false;
        }
    }
    true
}

fn is_same_begun(begun: &Begun, other: &Begun) -> bool
    ensures { result ≡ same_begun begun.now other.now }
{
    match (begun, other) {
        (Begun::Async(child, pairs), Begun::Async(other, others)) => {
            *child == *other && are_same_pairs(pairs.as_slice(), others.as_slice())
        }
        (Begun::Signal, Begun::Signal)
        | (Begun::Wait, Begun::Wait)
        | (Begun::Next, Begun::Next)
        | (Begun::Shut, Begun::Shut)
        | (Begun::End, Begun::End) => true,
        (Begun::NextSingle(number), Begun::NextSingle(other)) => *number == *other,
        _ => false,
    }
}

/// Whether two acts are the same, the numbers that they draw among it.
pub(crate) fn is_same_act(act: &Tried, other: &Tried) -> bool
    ensures { result ≡ same_act act.now other.now }
{
    match (act, other) {
        (Tried::Begun(begun), Tried::Begun(other)) => is_same_begun(begun, other),
        (Tried::New(n, mode, terms), Tried::New(m, other, others)) => {
            *n == *m && is_same_mode(*mode, *other) && are_same_terms(terms, others)
        }
        (Tried::Open(f), Tried::Open(g)) => *f == *g,
        (Tried::Send(n, accumulator, value), Tried::Send(m, index, sent)) => {
            *n == *m && *accumulator == *index && *value == *sent
        }
        (Tried::Look(n, accumulator), Tried::Look(m, index)) => {
            *n == *m && *accumulator == *index
        }
        _ => false,
    }
}
