//! A worker, as a table's calls see it.
use phaser_cell::{Out, Tickets};
use share_book::{Ledgers, Shares};

/// What a worker brings to each call of a table: what waits for locks, the tickets of the run, its
/// shares of the books, and the list into which the items of those are put whom its calls wake.
#[derive(Drop)]
pub struct Caller<'a, T, K: Ledgers, R> {
    pub rt: &'a R,
    pub tickets: &'a Tickets,
    pub mine: Shares<K>,
    pub out: Out<T>,
}
