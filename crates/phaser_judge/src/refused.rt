//! Why an event is refused.
use phase_model::LongLook;
use phase_modes::Refusal;

/// Why an event is refused. After `Memory` the judge is as before, and the event may be handed over
/// again. After any other the judge is over.
#[derive(Clone, Copy, Debug, PartialEq, Eq)]
pub enum Refused {
    /// The phaser isn't made, or its last task has left it.
    NotMade,
    /// The phaser is made already.
    MadeAlready,
    /// The acting task isn't registered on the phaser.
    NotRegistered,
    /// The child is registered on the phaser already.
    RegisteredAlready,
    /// The phaser refuses the call.
    Rule(Refusal),
    /// The task had to wait: its phase wasn't closed, or its single wasn't done, or the signal was beyond
    /// the bound.
    HadToWait,
    /// The task was told to pass, but it had the phase's single to claim.
    ClaimsInstead,
    /// The task was told to claim a single, but it had none to claim, and passed.
    PassesInstead,
    /// The look saw another value than this one.
    SawOther(LongLook),
    /// There is no memory for it.
    Memory,
    /// An event was refused before.
    Over,
}
