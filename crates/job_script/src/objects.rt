//! Objects: known keys, and the limits of a run.
ghost use Rattle.std.specs.Prelude.{◌≡◌, map, string_bytes, IfSome, true};
ghost use Rattle.std.specs.List.{list_all, list_any};
ghost use Rattle.std.specs.Str.{bytes_eq};
ghost use Rattle.std.specs.BTreeMap.{keys};
ghost use Rattle.serde_json.specs.View.{view};
ghost use Rattle.phase_modes.specs.Limits.{limits_fit};
ghost use Rattle.job_script.specs.Words.{has_only, limit_at, named_limits_in, limits_in, limits_of};

use crate::items::number_of;
use phase_modes::Limits;
use serde_json::{Map, Value};

// ---- known keys

fn is_among(key: &str, names: &[&str]) -> bool
    ensures { result ≡ list_any (λ name. bytes_eq key.now name.now) names.now }
{
    names.iter().any(|name| key == *name)
}

fn all_among(members: &Map<String, Value>, names: &[&str]) -> bool
    ensures { result ≡ list_all (λ key. list_any (λ name. bytes_eq (string_bytes key) name.now) names.now)
        (keys members.now) }
{
    members.keys().all(|key| is_among(key.as_str(), names))
}

/// Whether it is an object, and each of its keys is one of the names. A name need not be a key.
pub fn has_only_keys(value: &Value, names: &[&str]) -> bool
    ensures { result ≡ has_only (map (λ name. name.now) names.now) (view value.now) }
{
    match value.as_object() {
        None => false,
        Some(members) => all_among(members, names),
    }
}

// ---- the limits

/// The number at a key, or the default if there is no such key.
fn limit_at(limits: &Value, key: &str, default: u32) -> Option<u32>
    ensures { result ≡ limit_at key.now default (view limits.now) }
{
    match limits.get(key) {
        None => Some(default),
        Some(value) => number_of(value, u32::MAX),
    }
}

/// The limits that an object names, if each is between its least and its greatest.
#[tactic(auto, unfolding(crate::specs::Words::named_limits_in))]
fn named_limits(limits: &Value) -> Option<Limits>
    ensures limits { result ≡ named_limits_in (view limits.now) }
    ensures fit { IfSome result (λ l. limits_fit l ≡ true) }
{
    let default = Limits::default();
    let acts = limit_at(limits, "acts", default.acts)?;
    let finishes = limit_at(limits, "finishes", default.finishes)?;
    let history = limit_at(limits, "history", default.history)?;
    let phasers = limit_at(limits, "phasers", default.phasers)?;
    let regs = limit_at(limits, "regs", default.regs)?;
    let tasks = limit_at(limits, "tasks", default.tasks)?;
    let read = Limits {
        acts,
        finishes,
        history,
        phasers,
        regs,
        tasks,
    };
    if read.fits() { Some(read) } else { None }
}

/// The limits, in an object that has no other keys.
#[tactic(auto, unfolding(crate::specs::Words::limits_in))]
fn limits_in(limits: &Value) -> Option<Limits>
    ensures limits { result ≡ limits_in (view limits.now) }
    ensures fit { IfSome result (λ l. limits_fit l ≡ true) }
{
    let keys = ["acts", "finishes", "history", "phasers", "regs", "tasks"];
    if has_only_keys(limits, &keys) {
        named_limits(limits)
    } else {
        None
    }
}

/// The limits of a text: what stands at its key `limits`, with the default for each limit that
/// isn't named there, and the defaults alone if there is no such key. None if one isn't
/// between its least and its greatest, or where another key stands among them.
pub fn limits_of(text: &Value) -> Option<Limits>
    ensures limits { result ≡ limits_of (view text.now) }
    ensures fit { IfSome result (λ l. limits_fit l ≡ true) }
{
    match text.get("limits") {
        None => Some(Limits::default()),
        Some(limits) => limits_in(limits),
    }
}
