//! Reads the bound of a phaser that is made.
ghost use Rattle.std.specs.Prelude.{◌≡◌, ◌≤◌};
ghost use Rattle.serde_json.specs.View.{view};
ghost use Rattle.trace_text.specs.Form.{bound_or_null, bound_after};

use crate::version::Version;
use job_script::bound_of;
use phase_model::Bound;
use serde_json::Value;

/// A bound, or null for none.
fn bound_or_null_of(value: &Value) -> Option<Option<Bound>>
    ensures { result ≡ bound_or_null (view value.now) }
{
    if value.is_null() {
        return Some(None);
    }
    let bound = bound_of(value)?;
    Some(Some(bound))
}

/// The bound that ends a list, after so many items. In version 1 nothing follows them, and there is
/// no bound.
#[tactic(auto, unfolding(crate::specs::Form::bound_after))]
pub(super) fn bound_after(version: Version, count: usize, list: &Value) -> Option<Option<Bound>>
    requires { count ≤ 7 }
    ensures { result ≡ bound_after version count (view list.now) }
{
    match version {
        Version::First => {
            if list.get(count).is_some() {
                return None;
            }
            Some(None)
        }
        Version::Second => {
            if list.get(count + 1).is_some() {
                return None;
            }
            bound_or_null_of(list.get(count)?)
        }
    }
}
