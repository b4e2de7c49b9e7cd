//! Texts that are written: one that was formed before its first byte is, and a failure's line.
ghost use Rattle.std.specs.Prelude.{◌≡◌, IfErr, OnOk};
ghost use Rattle.std.specs.Io.KnownBytes.{Appends};
ghost use Rattle.job_ends.specs.Ends.{AppendsFront};

use crate::failure::Failure;
use std::io;
use std::io::{ErrorKind, Write};

/// Writes the whole text, and flushes.
fn write_and_flush<W: Write>(out: &mut W, text: &str) -> io::Result<()>
    ensures { OnOk result (Appends (W.contents out.old) (W.contents out.new) text.now) }
{
    out.write_all(text.as_bytes())?;
    out.flush()
}

/// Writes the whole text, and flushes the writer.
pub fn put_text<W: Write>(out: &mut W, text: &str) -> Result<(), Failure>
    ensures done { OnOk result (Appends (W.contents out.old) (W.contents out.new) text.now) }
    ensures failure { IfErr result (λ f. f ≡ Failure.Write) }
{
    match write_and_flush(out, text) {
        Ok(()) => Ok(()),
        Err(_) => Err(Failure::Write),
    }
}

/// How many writes are tried for one text.
const MOST_WRITES: u32 = 1_000;

/// Writes the text: in one write, if the writer takes it whole. Returns whether all was written.
pub fn write_text<F: Write>(faults: &mut F, text: &str) -> bool
    ensures { AppendsFront result (F.contents faults.old) (F.contents faults.new) text.now }
{
    let bytes = text.as_bytes();
    let mut written = 0;
    for _ in 0..MOST_WRITES {
        match faults.write(&bytes[written..]) {
            Ok(0) => return false,
            Ok(count) => written += count,
            Err(error) if error.kind() == ErrorKind::Interrupted => {}
            Err(_) => return false,
        }
        if written == bytes.len() {
            return true;
        }
    }
    false
}
