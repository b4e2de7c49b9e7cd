//! The deques and passes of all seats.
ghost use Rattle.std.specs.Prelude.{◌≡◌, ℕ, [], ◌<◌, ◌≤◌, ◌+◌, ◌-◌, All, map, IfOk, OnOk, vec_len, length, ◌++◌, ◌∷◌};
ghost use Rattle.crossbeam_deque.specs.Handles.{worker_deque};
ghost use Rattle.task_queue.specs.Accounts.{AreFresh, AreTogether};
ghost use Rattle.task_queue.specs.Reaches.{reach_deque, IsSpare, IsUnused};

use crate::deque;
use crate::deque::Deque;
use crate::reach::Reach;
use crate::seat::Seat;
use std::alloc::{AllocError, Global};

// Puts an item last.
pub fn add<X: Drop>(list: &mut Vec<X>, item: X) -> Result<(), AllocError>
    ensures items { OnOk result (list.new.items ≡ list.old.items ++ item ∷ []) }
    ensures len { OnOk result (vec_len list.new ≡ vec_len list.old + 1) }
{
    if list.push(item).is_err() {
        return Err(AllocError);
    }
    Ok(())
}

// A reach to a deque.
fn reach_one<T>(own: &mut Deque<T>, left: u32) -> Result<Reach<T>, AllocError>
    requires left { 1 < left }
    requires spare { IsSpare left own.old }
    ensures spare { OnOk result (IsSpare (left - 1) own.new) }
    ensures same { worker_deque own.new ≡ worker_deque own.old }
    ensures reach { IfOk result (λ r. (reach_deque r ≡ worker_deque own.old) × IsUnused r) }
{
    let thief = own.stealer()?;
    let pass = deque::another(own);
    Ok(Reach { thief, pass })
}

#[tactic(auto, using(crate::proofs::Fairs::all_more, crate::proofs::Fairs::map_more))]
// A reach to each deque.
pub fn reach_all<T: Drop>(
    alloc: Global,
    deques: Vec<Deque<T>>,
    left: u32,
) -> Result<(Vec<Deque<T>>, Vec<Reach<T>>), AllocError>
    requires left { 1 < left }
    requires spare { All (IsSpare left) deques.items }
    ensures spare { IfOk result (λ r. All (IsSpare (left - 1)) r.0.items) }
    ensures same { IfOk result (λ r. map worker_deque r.0.items ≡ map worker_deque deques.items) }
    ensures reaches { IfOk result (λ r. (map reach_deque r.1.items ≡ map worker_deque deques.items) × All IsUnused r.1.items) }
{
    let mut owns = Vec::new(alloc);
    let mut reaches = Vec::new(alloc);
    for own in deques {
        let mut own = own;
        let reach = reach_one(&mut own, left)?;
        add(&mut owns, own)?;
        add(&mut reaches, reach)?;
    }
    Ok((owns, reaches))
}

#[tactic(auto, using(crate::proofs::Fairs::all_more, crate::proofs::Fairs::map_more))]
// The deques of all workers, and for each worker a reach to each.
pub fn open_all<T: Drop>(
    alloc: Global,
    workers: u32,
    room: usize,
) -> Result<(Vec<Deque<T>>, Vec<Vec<Reach<T>>>), AllocError>
    requires { workers ≤ 16 }
    ensures deques { IfOk result (λ r. (vec_len r.0 ≡ workers) × All (IsSpare (17 - workers)) r.0.items) }
    ensures rows { IfOk result (λ r. (vec_len r.1 ≡ workers) × All (λ row. (map reach_deque row.items ≡ map worker_deque r.0.items) × All IsUnused row.items) r.1.items) }
{
    let mut deques = Vec::new(alloc);
    for _made in 0..workers {
        let deque = deque::fresh::<T>(alloc, room)?;
        add(&mut deques, deque)?;
    }
    let mut rows = Vec::new(alloc);
    for row in 0..workers {
        let (owns, reaches) = reach_all(alloc, deques, 17 - row)?;
        deques = owns;
        add(&mut rows, reaches)?;
    }
    Ok((deques, rows))
}

// Puts an item first.
pub fn add_first<X: Drop>(list: &mut Vec<X>, item: X) -> Result<(), AllocError>
    ensures items { OnOk result (list.new.items ≡ item ∷ list.old.items) }
{
    if list.insert(0, item).is_err() {
        return Err(AllocError);
    }
    Ok(())
}

// A seat in which nothing has happened.
fn seat_one<T>(worker: usize, own: Deque<T>, reaches: Vec<Reach<T>>) -> Seat<T>
    requires worker { (worker < length reaches.items) × (length reaches.items ≤ 16) }
    requires spare { IsSpare (17 - length reaches.items) own }
    requires unused { All IsUnused reaches.items }
    ensures own { (result.worker ≡ worker) × (result.own ≡ worker_deque own) }
    ensures deques { result.deques ≡ map reach_deque reaches.items }
    ensures fresh { (result.put ≡ []) × (result.popped ≡ []) × All (λ l. l ≡ []) result.stolen }
{
    Seat {
        worker,
        own,
        reaches,
    }
}

// Seats, each with its own deque and a row of reaches.
fn seat_each<T: Drop>(
    alloc: Global,
    deques: Vec<Deque<T>>,
    rows: Vec<Vec<Reach<T>>>,
) -> Result<Vec<Seat<T>>, AllocError>
    requires length { (length deques.items ≤ 16) × (length rows.items ≡ length deques.items) }
    requires deques { All (IsSpare (17 - length deques.items)) deques.items }
    requires rows { All (λ row. (map reach_deque row.items ≡ map worker_deque deques.items) × All IsUnused row.items) rows.items }
    ensures length { IfOk result (λ seats. length seats.items ≡ length deques.items) }
    ensures together { IfOk result (λ seats. AreTogether seats.items) }
    ensures fresh { IfOk result (λ seats. AreFresh seats.items) }
{
    let mut deques = deques;
    let mut rows = rows;
    let mut seats = Vec::new(alloc);
    while let Some(own) = deques.pop() {
        let Some(reaches) = rows.pop() else {
            unreachable!()
        };
        let worker = deques.len();
        add_first(&mut seats, seat_one(worker, own, reaches))?;
    }
    Ok(seats)
}

// The seats of all workers, each with its own deque and its row of reaches.
pub(crate) fn seat_all<T: Drop>(
    alloc: Global,
    workers: u32,
    room: usize,
) -> Result<Vec<Seat<T>>, AllocError>
    requires { workers ≤ 16 }
    ensures length { IfOk result (λ seats. vec_len seats ≡ workers) }
    ensures seats { IfOk result (λ seats. AreTogether seats.items × AreFresh seats.items) }
{
    let (deques, rows) = open_all(alloc, workers, room)?;
    seat_each(alloc, deques, rows)
}
