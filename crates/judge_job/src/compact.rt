//! Events in lines without blanks, as traces and the drop-ins write them. They are read from their bytes,
//! without a token. Any other line is left to the reader of JSON.
ghost use Rattle.std.specs.Prelude.{◌≡◌, ◌+◌, ◌^◌, ◌<◌, ◌++◌, ◌∷◌, [], codes, length, slice_index, IfSome, IsTrue, Some};
ghost use Rattle.std.specs.Fmt.{decimal};
ghost use Rattle.judge_job.specs.Forms.{text_in};
ghost use Rattle.judge_job.specs.inner.Compact.{Spells};

use crate::line::Line;
use phaser_judge::{Named, NamedEvent};

/// The greatest number to which a digit can be put within 64 bits.
const MOST_BEFORE_DIGIT: u64 = (u64::MAX - 9) / 10;

/// What follows this front of the bytes, if they begin so.
fn after<'a>(bytes: &'a [u8], front: &[u8]) -> Option<&'a [u8]>
    ensures { IfSome result (λ rest. bytes.now ≡ front.now ++ rest.now) }
{
    bytes.strip_prefix(front)
}

/// The digit at this place, if one stands there.
fn digit_at(bytes: &[u8], at: usize) -> Option<u64>
    ensures { IfSome result (λ d. (at < length bytes.now) × (d < 10) × (slice_index bytes.now at ≡ 48 + d)) }
{
    if at < bytes.len() && bytes[at].is_ascii_digit() {
        Some((bytes[at] - b'0') as u64)
    } else {
        None
    }
}

/// The number that the bytes begin with, if it is written as `{}` writes it, and what follows it.
#[tactic(auto, using(crate::proofs::Digits::zero_first, crate::proofs::Digits::first_digit, crate::proofs::Digits::next_digit))]
fn number(bytes: &[u8]) -> Option<(u64, &[u8])>
    ensures written { IfSome result (λ r. bytes.now ≡ decimal r.0 ++ r.1.now) }
    ensures fits { IfSome result (λ r. r.0 < 2 ^ 64) }
{
    let mut number = digit_at(bytes, 0)?;
    if number == 0 {
        return Some((0, &bytes[1..]));
    }
    let mut len = 1;
    while let Some(digit) = digit_at(bytes, len) {
        if MOST_BEFORE_DIGIT < number {
            return None;
        }
        number = number * 10 + digit;
        len += 1;
    }
    Some((number, &bytes[len..]))
}

/// Whether the list ends here, and the text with it.
fn is_end(bytes: &[u8]) -> bool
    ensures { IsTrue result → bytes.now ≡ 93 ∷ [] }
{
    bytes == b"]".as_slice()
}

/// The task of what has nothing else.
fn only_task(bytes: &[u8]) -> Option<u64>
    ensures written { IfSome result (λ t. bytes.now ≡ decimal t ++ 93 ∷ []) }
    ensures fits { IfSome result (λ t. t < 2 ^ 64) }
{
    let (task, rest) = number(bytes)?;
    if is_end(rest) { Some(task) } else { None }
}

/// A signal, after its name: the task, and perhaps the number of a single.
fn sig(bytes: &[u8]) -> Option<Named>
    ensures { IfSome result (λ e. Spells e (codes ",\"sig\"," ++ bytes.now)) }
{
    let (task, rest) = number(bytes)?;
    if is_end(rest) {
        return Some(Named::Sig(task, None));
    }
    let single = only_task(after(rest, b",")?)?;
    if single <= 4_294_967_295 {
        Some(Named::Sig(task, Some(single as u32)))
    } else {
        None
    }
}

/// What happened, by its name.
fn named(bytes: &[u8]) -> Option<Named>
    ensures { IfSome result (λ e. Spells e bytes.now) }
{
    if let Some(rest) = after(bytes, b",\"sig\",") {
        return sig(rest);
    }
    if let Some(rest) = after(bytes, b",\"pass\",") {
        return Some(Named::Pass(only_task(rest)?));
    }
    if let Some(rest) = after(bytes, b",\"drop\",") {
        return Some(Named::Drop(only_task(rest)?));
    }
    if let Some(rest) = after(bytes, b",\"claim\",") {
        return Some(Named::Claim(only_task(rest)?));
    }
    if let Some(rest) = after(bytes, b",\"did\",") {
        return Some(Named::Did(only_task(rest)?));
    }
    None
}

/// The event of a phaser that a line without blanks spells, with its ticket.
pub(crate) fn compact_line(bytes: &[u8]) -> Option<Line>
    ensures { IfSome result (λ l. text_in bytes.now ≡ Some l) }
{
    let (ticket, rest) = number(after(bytes, b"[")?)?;
    let (phaser, rest) = number(after(rest, b",\"p\",")?)?;
    let event = named(rest)?;
    Some(Line {
        ticket,
        event: Some(NamedEvent { phaser, event }),
    })
}
