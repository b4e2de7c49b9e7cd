//! What is left of all deques.
ghost use Rattle.std.specs.Prelude.{◌≡◌, ℕ, [], ◌∷◌, ◌++◌, ◌+◌, All, map, IfOk, length};
ghost use Rattle.crossbeam_deque.specs.Handles.{worker_deque, IsPassOf};
ghost use Rattle.task_queue.specs.Accounts.{AreTogether, IsConserved};
ghost use Rattle.task_queue.specs.inner.Emptied.{IsWholeBut, AreRows, IsEmptied, IsRestOf, AreApart, AreInOrder};
ghost use Rattle.task_queue.specs.Fair.{weigh};
ghost use Rattle.task_queue.specs.inner.Passes.{parts_of, put_of, taken_weight};
ghost use Rattle.task_queue.specs.Reaches.{reach_deque, IsReach, row_weight};
ghost use Rattle.task_queue.specs.Seats.{account_of};

use crate::deque::Deque;
use crate::opening::{add, add_first};
use crate::order::in_order;
use crate::reach::Reach;
use crate::rest::{drain, join_passes};
use crate::rule::Hand;
use crate::seat::Seat;
use crossbeam_deque::Pass;
use std::alloc::{AllocError, Global};

// The last pass of a row, and the row without it.
fn last_of<T: Drop>(
    owns: &Vec<Deque<T>>,
    own: &Deque<T>,
    row: Vec<Reach<T>>,
) -> (Vec<Reach<T>>, Pass<T, Hand<T>>)
    requires fits { map reach_deque row.items ≡ map worker_deque owns.now.items ++ worker_deque own.now ∷ [] }
    requires ready { All IsReach row.items }
    ensures fits { map reach_deque result.0.items ≡ map worker_deque owns.now.items }
    ensures ready { All IsReach result.0.items }
    ensures pass { IsPassOf (worker_deque own.now) result.1 × (parts_of result.1 ≡ 1) × (put_of result.1 ≡ []) }
    ensures taken { (h : ℕ → T → ℕ) → row_weight h row ≡ row_weight h result.0 + taken_weight (h (length owns.now.items)) result.1 }
{
    let mut row = row;
    let Some(reach) = row.pop() else {
        unreachable!()
    };
    let Reach { thief: _, pass } = reach;
    (row, pass)
}

// The passes of one deque, the last of each row, and the rows without them.
fn column<T: Drop>(
    alloc: Global,
    owns: &Vec<Deque<T>>,
    own: &Deque<T>,
    rows: Vec<Vec<Reach<T>>>,
) -> Result<(Vec<Vec<Reach<T>>>, Vec<Pass<T, Hand<T>>>), AllocError>
    requires { AreRows (map worker_deque owns.now.items ++ worker_deque own.now ∷ []) rows.items }
    ensures rows { IfOk result (λ r. AreRows (map worker_deque owns.now.items) r.0.items) }
    ensures passes { IfOk result (λ r. All (λ p. IsPassOf (worker_deque own.now) p × (parts_of p ≡ 1) × (put_of p ≡ [])) r.1.items) }
    ensures length { IfOk result (λ r. (length r.0.items ≡ length rows.items) × (length r.1.items ≡ length rows.items)) }
    ensures taken { IfOk result (λ r. (h : ℕ → T → ℕ) → weigh (row_weight h) rows.items ≡ weigh (row_weight h) r.0.items + weigh (taken_weight (h (length owns.now.items))) r.1.items) }
{
    let mut kept = Vec::new(alloc);
    let mut passes = Vec::new(alloc);
    for row in rows {
        let (rest, pass) = last_of(owns, own, row);
        add(&mut passes, pass)?;
        add(&mut kept, rest)?;
    }
    Ok((kept, passes))
}

// The rows without the last deque's passes, and what it still holds before the rest.
fn empty_last<T: Drop>(
    alloc: Global,
    owns: &Vec<Deque<T>>,
    own: Deque<T>,
    rows: Vec<Vec<Reach<T>>>,
    rest: Vec<T>,
) -> Result<(Vec<Vec<Reach<T>>>, Vec<T>), AllocError>
    requires own { IsWholeBut (length rows.items) own }
    requires rows { AreRows (map worker_deque owns.now.items ++ worker_deque own ∷ []) rows.items }
    ensures rows { IfOk result (λ r. AreRows (map worker_deque owns.now.items) r.0.items) }
    ensures length { IfOk result (λ r. length r.0.items ≡ length rows.items) }
    ensures rest { IfOk result (λ r. IsEmptied (length owns.now.items) own rows.items r.0.items rest.items r.1.items) }
{
    let mut own = own;
    let (kept, passes) = column(alloc, owns, &own, rows)?;
    join_passes(&mut own, passes);
    let mut all = drain(alloc, &mut own)?;
    let mut rest = rest;
    all.append(&mut rest)?;
    Ok((kept, all))
}

// What all deques still hold, in their order.
fn empty_all<T: Drop>(
    alloc: Global,
    owns: Vec<Deque<T>>,
    rows: Vec<Vec<Reach<T>>>,
) -> Result<Vec<T>, AllocError>
    requires owns { All (IsWholeBut (length rows.items)) owns.items }
    requires rows { AreRows (map worker_deque owns.items) rows.items }
    ensures { IfOk result (λ rest. IsRestOf owns.items rows.items rest.items) }
{
    let mut owns = owns;
    let mut rows = rows;
    let mut rest = Vec::new(alloc);
    while let Some(own) = owns.pop() {
        let (kept, all) = empty_last(alloc, &owns, own, rows, rest)?;
        rows = kept;
        rest = all;
    }
    Ok(rest)
}

// The deque and the reaches of a seat.
fn open_seat<T>(seat: Seat<T>) -> (Deque<T>, Vec<Reach<T>>)
    ensures account { account_of seat.worker result.0 result.1.items ≡ seat }
    ensures whole { IsWholeBut (length result.1.items) result.0 }
    ensures ready { All IsReach result.1.items }
{
    let Seat {
        worker: _,
        own,
        reaches,
    } = seat;
    (own, reaches)
}

// The seats' own deques, and their rows of reaches.
fn apart<T: Drop>(
    alloc: Global,
    seats: Vec<Seat<T>>,
) -> Result<(Vec<Deque<T>>, Vec<Vec<Reach<T>>>), AllocError>
    requires { AreInOrder seats.items }
    ensures owns { IfOk result (λ r. All (IsWholeBut (length seats.items)) r.0.items) }
    ensures rows { IfOk result (λ r. AreRows (map (λ s. s.own) seats.items) r.1.items) }
    ensures length { IfOk result (λ r. length r.1.items ≡ length seats.items) }
    ensures apart { IfOk result (λ r. AreApart seats.items r.0.items r.1.items) }
{
    let mut seats = seats;
    let mut owns = Vec::new(alloc);
    let mut rows = Vec::new(alloc);
    while let Some(seat) = seats.pop() {
        let (own, reaches) = open_seat(seat);
        add_first(&mut owns, own)?;
        add_first(&mut rows, reaches)?;
    }
    Ok((owns, rows))
}

// What is left of all seats' deques, in their workers' order.
pub(crate) fn rest_of<T: Drop>(alloc: Global, seats: Vec<Seat<T>>) -> Result<Vec<T>, AllocError>
    requires { AreTogether seats.items }
    ensures { IfOk result (λ rest. IsConserved seats.items rest.items) }
{
    let ordered = in_order(alloc, seats)?;
    let (owns, rows) = apart(alloc, ordered)?;
    empty_all(alloc, owns, rows)
}
