//! How far apart the tasks of a phaser stand. Each function does nothing: its contract is the law,
//! and the check proves it.
ghost use Rattle.phase_model.specs.Span.{LegalIsSpanned, StaysOneSided, SignalStaysNear, PassStaysNear};

/// In a legal history no waiter is ahead of a signaller, and with a bound no signaller is further
/// ahead of a waiter than the bound says.
pub fn legal_is_spanned()
    ensures { LegalIsSpanned }
{}

/// Once nobody can wait, nobody ever can again; and the same of signals.
pub fn stays_one_sided()
    ensures { StaysOneSided }
{}

/// A signal that may be made leaves its task at most the bound ahead of each signaller, while
/// somebody waits.
pub fn signal_stays_near()
    ensures { SignalStaysNear }
{}

/// A waiter's pass that may be made leaves it at most the bound ahead of each waiter, while somebody
/// signals.
pub fn pass_stays_near()
    ensures { PassStaysNear }
{}
