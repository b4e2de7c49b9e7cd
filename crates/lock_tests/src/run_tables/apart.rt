//! While one thread holds a phaser's lock, another calls another phaser: two are locked apart, by the
//! table on which runs stand and by the one without receipts.
ghost use Rattle.std.specs.Prelude.{◌≡◌, ◌<◌, ℕ, [], true, All, IfSome, slice_get, vec_len};
ghost use Rattle.phase_modes.specs.Limits.{limits_fit};
ghost use Rattle.share_book.specs.Opening.{IsNamed, IsParted};

use super::*;
use phase_modes::Mode;
use scope_locks::PhaserTable;
use share_book::SharedLedgers;
use std::sync::atomic::{AtomicU64, Ordering};
use std::thread;
use std::thread::Threads;

/// How many turns a thread waits for the other before it gives up.
const MOST_TURNS: u64 = 10_000_000;

/// Waits until the word isn't 0, at most so many turns. Whether it saw that.
fn saw(word: &AtomicU64, turns: u64) -> bool {
    for _turn in 0..turns {
        if word.load(Ordering::SeqCst) > 0 {
            return true;
        }
        thread::yield_now();
    }
    false
}

/// What two threads tell each other: the one that it holds phaser 0's lock, the other that its call
/// has answered. Each word is 0 before.
#[derive(Drop)]
struct Handshake {
    held: AtomicU64,
    answered: AtomicU64,
}

impl Handshake {
    /// Neither thread has told anything yet.
    fn new() -> Handshake {
        Handshake {
            held: AtomicU64::new(0),
            answered: AtomicU64::new(0),
        }
    }

    /// Tells the other thread that the lock is held, and waits for its answer, for so many turns.
    /// Whether that came.
    fn wait_for_answer(&self, turns: u64) -> bool {
        self.held.store(1, Ordering::SeqCst);
        saw(&self.answered, turns)
    }
}

/// Holds phaser 0's lock until the other thread's call has answered, or for so many turns. Whether
/// the call has answered before the lock was given back.
fn hold<K: Naming, R: Wait>(
    rt: &R,
    table: &ReceiptTable<u32, K>,
    handshake: &Handshake,
    turns: u64,
) -> bool
    requires { 0 < table.now.phasers }
{
    let _phaser = table.lock(rt, 0);
    handshake.wait_for_answer(turns)
}

/// Task 0 signals on the phaser once the other thread has phaser 0's lock. Whether that was so, and
/// it has signalled.
fn call<K: Naming, R: Wait>(
    phaser: &mut SeenPhaser<'_, K>,
    by: &mut Caller<'_, u32, K, R>,
    handshake: &Handshake,
) -> bool
    requires { by.old.out ≡ [] }
{
    let seen = saw(&handshake.held, MOST_TURNS);
    let terms = Terms {
        ops: first_ops(0),
        bound: None,
    };
    let answer = phaser.answer_to(by, &terms, Call::Signal(0, None));
    handshake.answered.store(1, Ordering::SeqCst);
    seen && answer == Reply::Done
}

/// Task 0 makes the phaser of this number. Then one thread holds phaser 0's lock, for so many turns,
/// while another signals on this one.
fn hold_and_call<K: Naming + SharedLedgers, R: Threads + Wait + Sync>(
    by: Caller<'_, u32, K, R>,
    alloc: Global,
    table: ReceiptTable<u32, K>,
    number: usize,
    turns: u64,
) -> Result<(bool, bool), Refusal>
    requires empty { by.out ≡ [] }
    requires held { 0 < table.phasers }
    requires number { number < table.phasers }
{
    let mut by = by;
    let rt = by.rt;
    let mut phaser = SeenPhaser::of(rt, &table, number);
    let terms = Terms {
        ops: first_ops(0),
        bound: None,
    };
    if phaser.answer_to(&mut by, &terms, Call::Make(0, Mode::SigWait)) != Reply::Done {
        return Err(Refusal::NotNow);
    }
    by.out = Out::new(alloc)?;
    let handshake = Handshake::new();
    let shared = &handshake;
    let held = &table;
    Ok(thread::join(
        rt,
        move || hold(rt, held, shared, turns),
        move || call(&mut phaser, &mut by, shared),
    ))
}

/// The same of a table without receipts.
fn hold_plain<K: Naming, R: Wait>(
    rt: &R,
    table: &PhaserTable<u32, K>,
    handshake: &Handshake,
    turns: u64,
) -> bool
    requires { 0 < table.now.phasers }
{
    let _guard = table.lock(rt, 0);
    handshake.wait_for_answer(turns)
}

/// The same of a table without receipts.
fn call_plain<K: Naming, R: Wait>(
    table: &PhaserTable<u32, K>,
    number: usize,
    by: &mut Caller<'_, u32, K, R>,
    handshake: &Handshake,
) -> bool
    requires empty { by.old.out ≡ [] }
    requires number { number < table.now.phasers }
{
    let Caller {
        rt,
        tickets,
        mine,
        out,
    } = by;
    let seen = saw(&handshake.held, MOST_TURNS);
    let answer = signalled(table.signal(*rt, number, tickets, mine, out, 0, None, 0));
    handshake.answered.store(1, Ordering::SeqCst);
    seen && answer == Reply::Done
}

/// The same of a table without receipts.
fn hold_and_call_plain<K: Naming + SharedLedgers, R: Threads + Wait + Sync>(
    by: Caller<'_, u32, K, R>,
    table: PhaserTable<u32, K>,
    number: usize,
    turns: u64,
) -> Result<(bool, bool), Refusal>
    requires empty { by.out ≡ [] }
    requires held { 0 < table.phasers }
    requires number { number < table.phasers }
{
    let mut by = by;
    let rt = by.rt;
    let ops = first_ops(0);
    table.make(
        rt,
        number,
        by.tickets,
        &mut by.mine,
        0,
        Mode::SigWait,
        ops,
        None,
    )?;
    let handshake = Handshake::new();
    let shared = &handshake;
    let held = &table;
    Ok(thread::join(
        rt,
        move || hold_plain(rt, held, shared, turns),
        move || call_plain(held, number, &mut by, shared),
    ))
}

/// Both threads' parts, on a new table of two phasers: one with receipts, or one without.
fn apart<K: Naming + SharedLedgers, R: Threads + Wait + Sync>(
    rt: &R,
    alloc: Global,
    limits: Limits,
    blanks: Blanks,
    logs: Vec<Whole<Noted>>,
    with_receipts: bool,
    number: usize,
    turns: u64,
) -> Result<(bool, bool), Refusal>
    requires names { IsNamed blanks K.EventsByPhaser.name K.EventsByWorker.name K.UpByPhaser.name
        K.UpByWorker.name K.DownByPhaser.name K.DownByWorker.name K.Room.name }
    requires parts { IsParted blanks K.EventsByPhaser.parts K.EventsByWorker.parts K.UpByPhaser.parts
        K.UpByWorker.parts K.DownByPhaser.parts K.DownByWorker.parts K.Room.parts }
    requires fit { limits_fit limits ≡ true }
    requires limits { limits ≡ K.Logs.limits }
    requires two { blanks.phasers ≡ 2 }
    requires logs { (i : ℕ) → IfSome (slice_get logs.items i) (λ w. w.name ≡ K.Logs.logs i) }
    requires empty { All (λ w. w.items ≡ []) logs.items }
    requires each { vec_len logs ≡ 2 }
    requires number { number < 2 }
{
    let (books, phasers, mut shares) = open::<K>(alloc, blanks)?;
    let tickets = Tickets::new();
    let by = Caller {
        rt,
        tickets: &tickets,
        mine: shares.pop().ok_or(Refusal::NotNow)?,
        out: Out::new(alloc)?,
    };
    if with_receipts {
        let logs = PhaserLogs::<K>::of(alloc, logs)?;
        let table = ReceiptTable::<u32, K>::new(alloc, limits, books, phasers, logs)?;
        hold_and_call(by, alloc, table, number, turns)
    } else {
        let table = PhaserTable::<u32, K>::new(alloc, limits, books, phasers)?;
        hold_and_call_plain(by, table, number, turns)
    }
}

/// Names the ledgers and the logs.
fn named_apart<
    R: Threads + Wait + Sync,
    EP: Ledger + Send + Sync,
    EW: Ledger + Send + Sync,
    UP: Ledger + Send + Sync,
    UW: Ledger + Send + Sync,
    DP: Ledger + Send + Sync,
    DW: Ledger + Send + Sync,
    RM: Ledger + Send + Sync,
    L: Logs + Send + Sync,
>(
    rt: &R,
    alloc: Global,
    limits: Limits,
    blanks: Blanks,
    logs: Vec<Whole<Noted>>,
    with_receipts: bool,
    number: usize,
    turns: u64,
) -> Result<(bool, bool), Refusal>
    requires names { IsNamed blanks EP.name EW.name UP.name UW.name DP.name DW.name RM.name }
    requires parts { IsParted blanks EP.parts EW.parts UP.parts UW.parts DP.parts DW.parts RM.parts }
    requires fit { limits_fit limits ≡ true }
    requires limits { limits ≡ L.limits }
    requires two { blanks.phasers ≡ 2 }
    requires logs { (i : ℕ) → IfSome (slice_get logs.items i) (λ w. w.name ≡ L.logs i) }
    requires empty { All (λ w. w.items ≡ []) logs.items }
    requires each { vec_len logs ≡ 2 }
    requires number { number < 2 }
{
    apart::<Named<Seven<EP, EW, UP, UW, DP, DW, RM>, L>, R>(
        rt,
        alloc,
        limits,
        blanks,
        logs,
        with_receipts,
        number,
        turns,
    )
}

/// On a new table of two phasers.
fn held_while_signalled<R: Threads + Wait + Sync>(
    rt: &R,
    alloc: Global,
    with_receipts: bool,
    number: usize,
    turns: u64,
) -> Result<(bool, bool), Refusal>
    requires { number < 2 }
{
    let logs = new_logs(alloc, 2)?;
    named_apart::<R, Brand, Brand, Brand, Brand, Brand, Brand, Brand, Brand>(
        rt,
        alloc,
        Limits::default(),
        Blanks::new(2, 1),
        logs,
        with_receipts,
        number,
        turns,
    )
}

/// While one thread holds phaser 0's lock, another's signal on phaser 1 answers.
#[test]
fn two_phasers_lock_apart(rt: HostRuntime) -> Result<(), Fail> {
    for with_receipts in [true, false] {
        let ended = held_while_signalled(&rt, rt.alloc(), with_receipts, 1, MOST_TURNS);
        equal(&rt, ended, Ok((true, true)));
    }
    Ok(())
}

/// A signal on phaser 0 itself answers only once the lock is given back. So the test above would fail
/// if one lock were for the whole table.
#[test]
fn one_phaser_locks_once(rt: HostRuntime) -> Result<(), Fail> {
    for with_receipts in [true, false] {
        let ended = held_while_signalled(&rt, rt.alloc(), with_receipts, 0, 10_000);
        equal(&rt, ended, Ok((false, true)));
    }
    Ok(())
}
