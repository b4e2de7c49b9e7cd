//! A line of a log.
ghost use Rattle.std.specs.Prelude.{◌≡◌, ◌≤◌, length, nat_le, is_some, Some, None, MatchOption, MatchResult, ◌&&◌, true, false};
ghost use Rattle.std.specs.Bool.{MatchBool};
ghost use Rattle.json.specs.Lex.{tokens};
ghost use Rattle.std.specs.Str.{is_utf8};
ghost use Rattle.json.specs.Json.{document, read_key};
ghost use Rattle.judge_job.specs.Forms.{after_begin_object, is_header_of, is_header, is_version, is_object_end, kind_in, line_in, list_in, text_in, most_bytes};

use crate::compact::compact_line;
use crate::event::event_of;
use crate::items::{begins, number, word};
use json::{Reader, Scratch, Token, is_valid};
use phaser_judge::NamedEvent;

/// How many bytes a line has at most, its newline not among them.
pub const MOST_LINE_BYTES: usize = 65_536;

/// What a line says: an event with its ticket. None is an event of a task or of a finish, of which
/// nothing else is read.
#[derive(Clone, Copy, Debug, PartialEq, Eq)]
pub struct Line {
    pub ticket: u64,
    pub event: Option<NamedEvent>,
}

/// Why a line isn't read.
#[derive(Clone, Copy, Debug, PartialEq, Eq)]
pub enum Unread {
    /// It is no event.
    BadText,
    /// There is no memory for it.
    Memory,
}

/// The event of a phaser, or none of one.
#[tactic(auto, unfolding(crate::specs::Forms::kind_in))]
fn kind_of(kind: &str, reader: &mut Reader<'_>) -> Option<Option<NamedEvent>>
    ensures { result ≡ kind_in kind.now reader.old }
{
    match kind {
        "p" => Some(Some(event_of(reader)?)),
        "t" => Some(None),
        "f" => Some(None),
        _ => None,
    }
}

/// A list that begins with a ticket, and says what it is about.
#[tactic(auto, unfolding(crate::specs::Forms::list_in))]
fn list_of(reader: &mut Reader<'_>) -> Option<Line>
    ensures { result ≡ list_in reader.old }
{
    if !begins(reader) {
        return None;
    }
    let ticket = number(reader)?;
    let kind = word(reader)?;
    let event = kind_of(kind, reader)?;
    Some(Line { ticket, event })
}

/// The list that stands first in a text.
fn first_list(scratch: &mut Scratch, text: &str) -> Result<Line, Unread>
    ensures { MatchResult result (λ l. list_in (tokens text.now) ≡ Some l)
        (λ e. e ≡ Unread.BadText → list_in (tokens text.now) ≡ None) }
{
    let Ok(mut reader) = Reader::new(text, scratch) else {
        return Err(Unread::Memory);
    };
    match list_of(&mut reader) {
        Some(line) => Ok(line),
        None => Err(Unread::BadText),
    }
}

/// Whether the text is JSON.
fn is_json(scratch: &mut Scratch, text: &str) -> Result<bool, Unread>
    ensures { MatchResult result (λ b. b ≡ is_some (document text.now)) (λ e. e ≡ Unread.Memory) }
{
    match is_valid(text, scratch) {
        Ok(valid) => Ok(valid),
        Err(_) => Err(Unread::Memory),
    }
}

/// The event with its ticket that a text spells.
#[tactic(auto, unfolding(crate::specs::Forms::text_in))]
fn line_of_text(scratch: &mut Scratch, text: &str) -> Result<Line, Unread>
    ensures { MatchResult result (λ l. text_in text.now ≡ Some l)
        (λ e. e ≡ Unread.BadText → text_in text.now ≡ None) }
{
    if let Some(line) = compact_line(text.as_bytes()) {
        return Ok(line);
    }
    let line = first_list(scratch, text)?;
    if line.event.is_some() || is_json(scratch, text)? {
        Ok(line)
    } else {
        Err(Unread::BadText)
    }
}

/// The text that a line is.
#[tactic(auto, using(crate::proofs::Utf8::is_text, crate::proofs::Utf8::is_no_text))]
fn text_of(bytes: &[u8]) -> Option<&str>
    ensures { MatchOption result ((nat_le (length bytes.now) most_bytes && is_utf8 bytes.now) ≡ false)
        (λ text. (text.now ≡ bytes.now) × ((nat_le (length bytes.now) most_bytes && is_utf8 bytes.now) ≡ true)) }
{
    if bytes.len() > MOST_LINE_BYTES {
        return None;
    }
    match std::str::from_utf8(bytes) {
        Ok(text) => Some(text),
        Err(_) => None,
    }
}

/// The event with its ticket that a line spells, whose newline is taken off.
#[tactic(auto, unfolding(crate::specs::Forms::line_in))]
pub fn event_of_line(scratch: &mut Scratch, bytes: &[u8]) -> Result<Line, Unread>
    ensures { MatchResult result (λ l. line_in bytes.now ≡ Some l)
        (λ e. e ≡ Unread.BadText → line_in bytes.now ≡ None) }
{
    match text_of(bytes) {
        Some(text) => line_of_text(scratch, text),
        None => Err(Unread::BadText),
    }
}

// ---- the header

/// Takes the brace that opens an object, if it is next.
fn opens(reader: &mut Reader<'_>) -> bool
    ensures { MatchBool result (after_begin_object reader.old ≡ Some reader.new)
        (after_begin_object reader.old ≡ None) }
{
    matches!(reader.next(), Some(Token::BeginObject))
}

/// Whether the object ends here, and the text with it.
fn is_object_end(reader: &mut Reader<'_>) -> bool
    ensures { result ≡ is_object_end (read_key reader.old) }
{
    match reader.next_key() {
        Ok(None) => reader.next().is_none(),
        _ => false,
    }
}

/// Whether these are the members of the header.
fn is_version(reader: &mut Reader<'_>) -> bool
    ensures { result ≡ is_version (read_key reader.old) }
{
    match reader.next_key() {
        Ok(Some("version")) => match number(reader) {
            Some(2) => is_object_end(reader),
            _ => false,
        },
        _ => false,
    }
}

/// Whether the text is the header.
fn is_header_text(scratch: &mut Scratch, text: &str) -> Result<bool, Unread>
    ensures { MatchResult result (λ b. b ≡ is_header_of (after_begin_object (tokens text.now)))
        (λ e. e ≡ Unread.Memory) }
{
    let Ok(mut reader) = Reader::new(text, scratch) else {
        return Err(Unread::Memory);
    };
    Ok(opens(&mut reader) && is_version(&mut reader))
}

/// Whether the line is the header.
#[tactic(auto, unfolding(crate::specs::Forms::is_header))]
pub fn is_header_line(scratch: &mut Scratch, bytes: &[u8]) -> Result<bool, Unread>
    ensures { MatchResult result (λ b. b ≡ is_header bytes.now) (λ e. e ≡ Unread.Memory) }
{
    match text_of(bytes) {
        Some(text) => is_header_text(scratch, text),
        None => Ok(false),
    }
}
