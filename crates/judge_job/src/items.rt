//! The items of a line's list: numbers, words, modes, operators. Each is read at the front of the
//! tokens, and is none if something else stands there. What the reader then still has is of no use.
ghost use Rattle.std.specs.Prelude.{◌≡◌, ◌<◌, ◌==◌, length, slice_index, option_map, ◌≤◌, IfSome, IsTrue, Some, None, true, false};
ghost use Rattle.std.specs.Bool.{MatchBool};
ghost use Rattle.fast_float.specs.Text.{scan};
ghost use Rattle.json.specs.Json.{after_end_array};
ghost use Rattle.judge_job.specs.Fronts.{Reads, has_minus, digits_in, whole_in, with_minus, signed_in, numeral_front, number_front, number_within, signed_front, value_front, word_front, mode_front, op_front, after_begin_array, is_last};

use fast_float::Numeral;
use json::{Reader, Token};
use phase_model::Op;
use phase_modes::Mode;

// ---- numbers

fn has_minus(bytes: &[u8]) -> bool
    ensures value { result ≡ has_minus bytes.now }
    ensures len { IsTrue result → 0 < length bytes.now }
{
    !bytes.is_empty() && bytes[0] == b'-'
}

/// Digits alone, of 64 bits.
fn digits_of(bytes: &[u8]) -> Option<u64>
    ensures { result ≡ digits_in (scan bytes.now) }
{
    Numeral::scan(bytes).to_u64()
}

/// A whole number of 64 bits, of the text of a number.
pub(crate) fn whole_of(text: &str) -> Option<u64>
    ensures { result ≡ whole_in text.now }
{
    let bytes = text.as_bytes();
    if has_minus(bytes) {
        return None;
    }
    digits_of(bytes)
}

/// The number with this sign, of 64 bits.
fn with_minus(negative: bool, number: u64) -> Option<i64>
    ensures { result ≡ with_minus negative number }
{
    if negative {
        if number == 0 || 1 << 63 < number {
            return None;
        }
        return Some(-((number - 1) as i64) - 1);
    }
    if number < 1 << 63 {
        Some(number as i64)
    } else {
        None
    }
}

/// A whole number of 64 bits with a sign, of the text of a number.
pub(crate) fn signed_of(text: &str) -> Option<i64>
    ensures { result ≡ signed_in text.now }
{
    let bytes = text.as_bytes();
    if has_minus(bytes) {
        let number = digits_of(&bytes[1..])?;
        return with_minus(true, number);
    }
    let number = digits_of(bytes)?;
    with_minus(false, number)
}

/// The text of a number.
fn numeral<'a>(reader: &mut Reader<'a>) -> Option<&'a str>
    ensures { Reads numeral_front reader.old (option_map (λ s. s.now) result) reader.new }
{
    match reader.next()? {
        Token::Number(text) => Some(text),
        _ => None,
    }
}

/// A whole number of 64 bits.
#[tactic(auto, unfolding(crate::specs::Fronts::number_front))]
pub(crate) fn number(reader: &mut Reader<'_>) -> Option<u64>
    ensures { Reads number_front reader.old result reader.new }
{
    whole_of(numeral(reader)?)
}

/// A whole number that is at most `most`.
#[tactic(auto, unfolding(crate::specs::Fronts::number_within))]
pub(crate) fn number_within(reader: &mut Reader<'_>, most: u64) -> Option<u64>
    ensures read { Reads (number_within most) reader.old result reader.new }
    ensures most { IfSome result (λ n. n ≤ most) }
{
    let number = number(reader)?;
    if number <= most { Some(number) } else { None }
}

/// A whole number of 64 bits with a sign.
#[tactic(auto, unfolding(crate::specs::Fronts::signed_front))]
pub(crate) fn signed(reader: &mut Reader<'_>) -> Option<i64>
    ensures { Reads signed_front reader.old result reader.new }
{
    signed_of(numeral(reader)?)
}

/// A value that is sent: a whole number of 32 bits with a sign.
#[tactic(auto, unfolding(crate::specs::Fronts::value_front))]
pub(crate) fn value(reader: &mut Reader<'_>) -> Option<i32>
    ensures { Reads value_front reader.old result reader.new }
{
    let number = signed(reader)?;
    if number < i32::MIN as i64 || (i32::MAX as i64) < number {
        return None;
    }
    Some(number as i32)
}

// ---- words

/// A word.
pub(crate) fn word<'a>(reader: &mut Reader<'a>) -> Option<&'a str>
    ensures { Reads word_front reader.old (option_map (λ s. s.now) result) reader.new }
{
    match reader.next()? {
        Token::String(text) => Some(text),
        _ => None,
    }
}

/// A mode.
#[tactic(auto, unfolding(crate::specs::Fronts::mode_front))]
pub(crate) fn mode(reader: &mut Reader<'_>) -> Option<Mode>
    ensures { Reads mode_front reader.old result reader.new }
{
    Mode::of_name(word(reader)?)
}

/// An operator.
#[tactic(auto, unfolding(crate::specs::Fronts::op_front))]
pub(crate) fn op(reader: &mut Reader<'_>) -> Option<Op>
    ensures { Reads op_front reader.old result reader.new }
{
    Op::of_name(word(reader)?)
}

// ---- lists

/// Takes the bracket that opens a list, if it is next.
pub(crate) fn begins(reader: &mut Reader<'_>) -> bool
    ensures { MatchBool result (after_begin_array reader.old ≡ Some reader.new)
        (after_begin_array reader.old ≡ None) }
{
    matches!(reader.next(), Some(Token::BeginArray))
}

/// Whether the list ends here, and the text with it.
pub(crate) fn is_last(reader: &mut Reader<'_>) -> bool
    ensures { result ≡ is_last reader.old }
{
    reader.take_end_array() && reader.next().is_none()
}
