//! What stands behind a phaser's lock.
ghost use Rattle.std.specs.Prelude.{◌≡◌};

use crate::front::PhaserLog;
use crate::naming::Naming;
use phaser_cell::PhaserCell;

/// A phaser with its book and those who wait at it, and the whole of its log.
#[derive(Drop)]
pub(crate) struct ReceiptCell<T, K: Naming> {
    pub(crate) cell: PhaserCell<T, K>,
    /// The phaser's number, by which its log is named.
    pub(crate) number: u32,
    pub(crate) log: PhaserLog<K>,
    ghost named: { log.log ≡ K.Logs.logs number },
    ghost told: { log.story ≡ cell.state.story },
}
