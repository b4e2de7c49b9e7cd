//! A body of one's own, run by two workers: three tasks send a number each and end their turn
//! together, and in the next round each sends the sum that it saw.
//!
//! It is proved of this program that the sum which the root gives back is the fold of all values that
//! were ever sent for the phase before the root's own, and that this phase was closed; and that the trace
//! has each turn and each child that the root counted (`add_up`).
#![tactic(auto)]

mod adder;
mod counts;

use adder::add_up;
use phase_model::Look;

fn main(rt: HostRuntime) -> anyhow::Result<()> {
    let report = add_up(&rt, rt.alloc())?;
    print!(&rt; "{}", report.world)?;
    if let Look::Value(sum) = report.root.saw {
        println!(&rt; "the root saw {sum}")?;
    }
    let counts = report.root.counts;
    println!(&rt;
        "the root turned {} time(s), and spawned {}",
        counts.turns, counts.children
    )?;
    Ok(())
}
