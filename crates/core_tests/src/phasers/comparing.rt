//! How many comparisons of task numbers the last call made, counted by hand.
use super::*;
use crate::asserted::equal_at;

/// A call, the reply to it, and how many comparisons it makes.
type Counted = (Call, Reply, u32);

/// Each call is replied to, and makes as many comparisons, as its row says.
fn counts(rt: &impl Abort, state: &mut PhaserState, rows: &[Counted]) {
    for (call, reply, compared) in rows {
        equal_at(rt, call, state.apply(*call), *reply);
        equal_at(rt, call, state.compared(), *compared);
    }
}

/// A line that comes or goes at the end is seen by one comparison or two. Where it stands
/// elsewhere, what was compared first counts too: for task 3 two, then tasks 5 and 0 until task 0's
/// line is found, and 5 and 0 again until the place between them is.
#[test]
fn what_was_compared_first_counts(rt: HostRuntime) -> Result<(), Fail> {
    const ROWS: [Counted; 6] = [
        (Call::Make(0, Mode::SigWait), Reply::Done, 0),
        (Call::Register(0, 5, Mode::SigWait), Reply::Done, 2),
        (Call::Register(0, 3, Mode::SigWait), Reply::Done, 6),
        (Call::Drop(5), Reply::Done, 1),
        (Call::Drop(0), Reply::Done, 1),
        (
            Call::Register(0, 9, Mode::Sig),
            Reply::Refused(Refusal::NotRegistered),
            2,
        ),
    ];
    let mut state = fresh(rt.alloc(), Limits::default(), Ops::none(), None)?;
    counts(&rt, &mut state, ROWS.as_slice());
    Ok(())
}
