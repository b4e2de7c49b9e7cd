//! The next value of a stream of tokens.
ghost use Rattle.std.specs.Prelude.{◌≡◌, ◌<◌, ◌==◌, IfSome, IsTrue, Some, length, slice_index, true, false};
ghost use Rattle.json.specs.Json.{value, items, members};
ghost use Rattle.serde_json.specs.Data.{no_members};
ghost use Rattle.serde_json.specs.Read.{of_json, of_items, of_members, converted, number_of, number_from};
ghost use Rattle.serde_json.specs.View.{view, number_view, items_view, members_view};

use fast_float::Numeral;
use json::{Reader, Token};
use serde_json::{Map, Number, Value};
use std::alloc::Global;

/// The next value of the reader, in which arrays and objects nest at most so deep. None if there
/// is none, as where it nests deeper; where a number in it isn't whole, as `-0`, `1.0` and `1e3`
/// aren't, or hasn't room in 64 bits; or if memory is refused. What the reader then still has is of
/// no use.
#[cycle(read)]
pub fn next_value(alloc: Global, reader: &mut Reader<'_>, depth: usize) -> Option<Value>
    ensures read { IfSome result
        (λ v. converted of_json (value depth reader.old) ≡ Some (view v, reader.new)) }
    ensures shorter { IfSome result (λ _. length reader.new < length reader.old) }
{
    let token = reader.next()?;
    match token {
        Token::String(text) => Some(Value::String(String::from_str(alloc, text).ok()?)),
        Token::Number(text) => Some(Value::Number(whole_number(text)?)),
        Token::Bool(b) => Some(Value::Bool(b)),
        Token::Null => Some(Value::Null),
        Token::EndObject | Token::EndArray | Token::Key(_) | Token::Bad => None,
        Token::BeginArray => {
            if depth == 0 {
                return None;
            }
            Some(Value::Array(next_items(alloc, reader, depth - 1)?))
        }
        Token::BeginObject => {
            if depth == 0 {
                return None;
            }
            Some(Value::Object(next_members(alloc, reader, depth - 1)?))
        }
    }
}

#[cycle(read)]
fn next_items(alloc: Global, reader: &mut Reader<'_>, depth: usize) -> Option<Vec<Value>>
    ensures read { IfSome result
        (λ v. converted of_items (items (value depth) (length reader.old) reader.old)
        ≡ Some (items_view v.items, reader.new)) }
    ensures shorter { IfSome result (λ _. length reader.new < length reader.old) }
{
    // An entry of a trace has 4 to 8 items.
    let mut found = Vec::with_capacity(alloc, 8).ok()?;
    'items: while !reader.take_end_array() {
        let item = next_value(alloc, reader, depth)?;
        found.push(item).ok()?;
    }
    Some(found)
}

#[cycle(read)]
fn next_members(alloc: Global, reader: &mut Reader<'_>, depth: usize) -> Option<Map<String, Value>>
    ensures read { IfSome result
        (λ m. converted (λ ms. of_members ms no_members)
        (members (value depth) (length reader.old) reader.old)
        ≡ Some (members_view m.entries, reader.new)) }
    ensures shorter { IfSome result (λ _. length reader.new < length reader.old) }
{
    let mut found = Map::new(alloc);
    'members: while let Some(name) = reader.next_key().ok()? {
        let key = String::from_str(alloc, name).ok()?;
        let member = next_value(alloc, reader, depth)?;
        drop(found.insert(key, member).ok()?);
    }
    Some(found)
}

// The number that a token of JSON writes, if it is whole and has room in 64 bits.
fn whole_number(text: &str) -> Option<Number>
    ensures { IfSome result (λ n. number_of text.now ≡ Some (number_view n)) }
{
    let bytes = text.as_bytes();
    if has_minus(bytes) {
        negative_number(&Numeral::scan(&bytes[1..]))
    } else {
        positive_number(&Numeral::scan(bytes))
    }
}

fn has_minus(bytes: &[u8]) -> bool
    ensures value { result ≡ (slice_index bytes.now 0 == 45) }
    ensures len { IsTrue result → 0 < length bytes.now }
{
    !bytes.is_empty() && bytes[0] == b'-'
}

fn positive_number(numeral: &Numeral<'_>) -> Option<Number>
    ensures { IfSome result (λ n. number_from false numeral.now ≡ Some (number_view n)) }
{
    let n = numeral.to_u64()?;
    Some(Number::from(n))
}

// None for `-0` too, which is a float.
fn negative_number(numeral: &Numeral<'_>) -> Option<Number>
    ensures { IfSome result (λ n. number_from true numeral.now ≡ Some (number_view n)) }
{
    let n = numeral.to_i64(true)?;
    if n < 0 { Some(Number::from(n)) } else { None }
}
