//! The totals of a report: of one event more, and of one phaser more.
ghost use Rattle.std.specs.Prelude.{◌≡◌, ◌≤◌, ◌+◌, ℕ, []};
ghost use Rattle.world_model.specs.Report.{totals_line};
ghost use Rattle.world_model.specs.SumLines.{IsWithin, plus};
ghost use Rattle.world_model.specs.inner.Totals.{totals_with, totals_sent};

use crate::TotalsLine;
use phase_model::{Event, down_of, up_of};

/// The totals of no phaser.
pub fn no_totals() -> TotalsLine
    ensures none { result ≡ totals_line [] }
    ensures within { IsWithin 0 result }
{
    TotalsLine {
        registered: 0,
        signals: 0,
        passes: 0,
        drops: 0,
        sends: 0,
        up: 0,
        down: 0,
    }
}

/// The totals of both.
pub fn plus(totals: TotalsLine, more: TotalsLine) -> TotalsLine
    requires few { IsWithin 4194304 totals }
    requires few_more { IsWithin 65536 more }
    ensures { result ≡ plus totals more }
{
    TotalsLine {
        registered: totals.registered + more.registered,
        signals: totals.signals + more.signals,
        passes: totals.passes + more.passes,
        drops: totals.drops + more.drops,
        sends: totals.sends + more.sends,
        up: totals.up + more.up,
        down: totals.down + more.down,
    }
}

/// The totals with one event more.
pub(crate) fn with_event(totals: TotalsLine, event: Event) -> TotalsLine
    requires { IsWithin 65536 totals }
    ensures with { result ≡ totals_with event totals }
    ensures within { (n : ℕ) → IsWithin n totals → IsWithin (n + 1) result }
{
    match event {
        Event::Make(_, _) | Event::Reg(_, _, _) => TotalsLine {
            registered: totals.registered + 1,
            ..totals
        },
        Event::Sig(_, _) => TotalsLine {
            signals: totals.signals + 1,
            ..totals
        },
        Event::Pass(_) => TotalsLine {
            passes: totals.passes + 1,
            ..totals
        },
        Event::Drop(_) => TotalsLine {
            drops: totals.drops + 1,
            ..totals
        },
        Event::Send(_, _, value) => with_value(totals, value),
        Event::Claim(_) | Event::Did(_) | Event::Look(_, _, _) => totals,
    }
}

/// The totals with one value more.
fn with_value(totals: TotalsLine, value: i32) -> TotalsLine
    requires { IsWithin 65536 totals }
    ensures sent { result ≡ totals_sent value totals }
    ensures within { (n : ℕ) → IsWithin n totals → IsWithin (n + 1) result }
{
    TotalsLine {
        sends: totals.sends + 1,
        up: totals.up + up_of(value),
        down: totals.down + down_of(value),
        ..totals
    }
}
