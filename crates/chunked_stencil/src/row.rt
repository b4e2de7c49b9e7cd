//! The row in pieces, by threads: each keeps the tasks of some pieces, and plays them in turn.
ghost use Rattle.std.specs.Prelude.{◌≡◌, ◌≤◌, ◌<◌, length, vec_len, IfOk};

use crate::bell::Bell;
use crate::border::{Border, Caller, Side, new_border};
use crate::cells::Piece;
use crossbeam_utils::CachePadded;
use phase_modes::Refusal;
use std::alloc::Global;
use std::sync::Wait;
use std::thread;
use std::thread::Threads;

/// The task of a piece, with its sides of the borders to its neighbours.
#[derive(Drop)]
struct LongTask {
    piece: Piece,
    left: Option<Side>,
    right: Option<Side>,
}

/// A thread, with the tasks that it keeps, from left to right.
struct Worker<'a, 'p, R: Wait> {
    me: Caller<'a, 'p, R>,
    tasks: Vec<LongTask>,
}

/// The cell that is shown on the other side; outside the row a cell is 0.
fn seen<R: Wait>(me: &mut Caller<R>, side: &Option<Side>) -> Result<u32, Refusal>
    ensures { IfOk result (λ cell. cell ≤ 1000000) }
{
    match side {
        Some(side) => side.see(me),
        None => Ok(0),
    }
}

impl LongTask {
    /// It shows its first and its last cell to its neighbours.
    fn show<R: Wait>(&self, me: &mut Caller<R>) -> Result<(), Refusal> {
        if let Some(left) = &self.left {
            left.show(me, self.piece.first())?;
        }
        if let Some(right) = &self.right {
            right.show(me, self.piece.last())?;
        }
        Ok(())
    }

    /// It goes a step, between the cells that its neighbours have shown, and shows its own.
    fn go<R: Wait>(&mut self, me: &mut Caller<R>) -> Result<(), Refusal> {
        let left = seen(me, &self.left)?;
        let right = seen(me, &self.right)?;
        self.piece.step(left, right);
        self.show(me)
    }

    /// It leaves: its neighbours wait for it no longer.
    fn leave<R: Wait>(&self, me: &mut Caller<R>) {
        if let Some(left) = &self.left {
            left.leave(me);
        }
        if let Some(right) = &self.right {
            right.leave(me);
        }
    }
}

/// Whose turn it is: the tasks at both ends come first, since other threads wait for them.
fn turn(number: usize, tasks: &[LongTask]) -> usize
    requires { number < length tasks.now }
    ensures { result < length tasks.now }
{
    match number {
        0 => 0,
        1 => tasks.len() - 1,
        _ => number - 1,
    }
}

/// Each of the tasks shows its border cells.
fn show_all<R: Wait>(me: &mut Caller<R>, tasks: &[LongTask]) -> Result<(), Refusal> {
    for task in tasks {
        task.show(me)?;
    }
    Ok(())
}

/// Each of the tasks goes a step.
fn step_all<R: Wait>(me: &mut Caller<R>, tasks: &mut [LongTask]) -> Result<(), Refusal> {
    for number in 0..tasks.len() {
        let place = turn(number, tasks);
        tasks[place].go(me)?;
    }
    Ok(())
}

/// All cells of the tasks, from left to right.
fn cells_of(alloc: Global, tasks: &[LongTask]) -> Result<Vec<u32>, Refusal> {
    let mut cells = Vec::new(alloc);
    for task in tasks {
        cells.extend_from_slice(&task.piece.cells)?;
    }
    Ok(cells)
}

impl<'a, 'p, R: Wait> Worker<'a, 'p, R> {
    /// Its tasks go so many steps. Their cells.
    fn work(mut self, alloc: Global, steps: u32) -> Result<Vec<u32>, Refusal> {
        let Worker { me, tasks } = &mut self;
        show_all(me, tasks)?;
        for _step in 0..steps {
            step_all(me, tasks)?;
        }
        cells_of(alloc, tasks)
    }
}

/// Whoever ends, as he should or by a refusal, leaves with his tasks.
impl<'a, 'p, R: Wait> Drop for Worker<'a, 'p, R> {
    fn drop(self) {
        let Worker { mut me, tasks } = self;
        for task in &tasks {
            task.leave(&mut me);
        }
    }
}

/// The borders between so many pieces.
fn new_borders<'p>(alloc: Global, pieces: usize) -> Result<Vec<Border<'p>>, Refusal> {
    let mut borders = Vec::new(alloc);
    for _behind in 1..pieces {
        borders.push(new_border(alloc)?)?;
    }
    Ok(borders)
}

/// So many bells. No two share a line of a processor's cache.
fn new_bells(alloc: Global, threads: usize) -> Result<Vec<CachePadded<Bell>>, Refusal>
    ensures { IfOk result (λ v. vec_len v ≡ threads) }
{
    let mut bells = Vec::new(alloc);
    for _thread in 0..threads {
        bells.push(CachePadded::new(Bell::new()))?;
    }
    Ok(bells)
}

/// Both sides of the border behind the piece of this number, if there is one.
fn sides_behind<R: Wait>(
    rt: &R,
    number: usize,
    borders: &[Border],
) -> Result<(Option<Side>, Option<Side>), Refusal> {
    let Some(border) = borders.get(number) else {
        return Ok((None, None));
    };
    let (on_left, on_right) = Side::both(rt, number, border)?;
    Ok((Some(on_left), Some(on_right)))
}

/// The tasks of the pieces.
fn new_tasks<R: Wait>(
    rt: &R,
    alloc: Global,
    pieces: Vec<Piece>,
    borders: &[Border],
) -> Result<Vec<LongTask>, Refusal> {
    let mut tasks = Vec::new(alloc);
    let mut left = None;
    let mut number = 0usize;
    for piece in pieces {
        let (right, next) = sides_behind(rt, number, borders)?;
        tasks.push(LongTask { piece, left, right })?;
        left = next;
        number = number.saturating_add(1);
    }
    Ok(tasks)
}

/// Workers that keep the tasks, each with a bell of its own: as many by each, but for the last.
fn new_workers<'a, 'p, R: Wait>(
    rt: &'a R,
    alloc: Global,
    tasks: Vec<LongTask>,
    borders: &'a [Border<'p>],
    bells: &'p [CachePadded<Bell>],
) -> Result<Vec<Worker<'a, 'p, R>>, Refusal>
    requires { 0 < length bells.now }
{
    let size = tasks.len().div_ceil(bells.len());
    let mut workers = Vec::new(alloc);
    let mut tasks = tasks;
    for bell in bells {
        let behind = tasks.split_off(size.min(tasks.len()))?;
        let me = Caller::new(rt, alloc, borders, bell)?;
        workers.push(Worker { me, tasks })?;
        tasks = behind;
    }
    Ok(workers)
}

/// The last worker in this thread, each other in one of its own, for so many steps. All cells, from
/// left to right.
fn work_all<R: Threads + Wait + Sync>(
    rt: &R,
    alloc: Global,
    workers: Vec<Worker<R>>,
    steps: u32,
) -> anyhow::Result<Vec<u32>> {
    let mut others = workers;
    let own = others.pop();
    thread::scope(
        thread::scope_env(),
        rt,
        |scope| -> anyhow::Result<Vec<u32>> {
            let mut threads = Vec::new(alloc);
            for worker in others {
                threads.push(scope.spawn(move || worker.work(alloc, steps))?)?;
            }
            let mut last = match own {
                Some(worker) => worker.work(alloc, steps)?,
                None => Vec::new(alloc),
            };
            let mut row = Vec::new(alloc);
            for thread in threads {
                row.append(&mut thread.join(rt)?)?;
            }
            row.append(&mut last)?;
            Ok(row)
        },
    )
}

/// The row whose pieces these are after so many steps, by so many threads.
pub fn row_after<R: Threads + Wait + Sync>(
    rt: &R,
    alloc: Global,
    pieces: Vec<Piece>,
    steps: u32,
    threads: usize,
) -> anyhow::Result<Vec<u32>>
    requires { 0 < threads }
{
    let bells = new_bells(alloc, threads)?;
    let borders = new_borders(alloc, pieces.len())?;
    let tasks = new_tasks(rt, alloc, pieces, &borders)?;
    let workers = new_workers(rt, alloc, tasks, &borders, &bells)?;
    work_all(rt, alloc, workers, steps)
}
