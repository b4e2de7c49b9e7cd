//! All bytes of a reader, up to a limit of bytes and of reads.
ghost use Rattle.std.specs.Prelude.{◌≡◌, ◌≤◌, ◌<◌, ◌+◌, ◌⊎◌, true, length, Err, IfSome, IfOk, IfErr, OnErr};
ghost use Rattle.std.specs.Io.KnownBytes.{ReadConsumes, IsAtEnd};
ghost use Rattle.std.specs.Io.{ReadsAtMost};
ghost use Rattle.job_ends.specs.Ends.{IsOfReading};
ghost use Rattle.job_ends.specs.Input.{IfBytes, IfTooLong, IfFault, IsFresh};

use crate::failure::Failure;
use phase_modes::Refusal;
use std::alloc::Global;
use std::io;
use std::io::Read;

/// How many bytes one read asks for.
const CHUNK: usize = 8192;

/// How many reads reading to the end makes at most.
const MOST_READS: u32 = 100_000_000;

/// What reading to the end gave.
#[derive(Debug, Drop)]
pub enum ReadAll {
    /// All the bytes.
    Bytes(Vec<u8>),
    /// There are more bytes than the limit.
    TooLong,
    /// A read failed, or the last read allowed had not reached the end.
    Fault,
    /// Memory ran out.
    Memory,
}

/// The reads that were made of one reader.
#[derive(Drop)]
pub struct Reads {
    /// How many.
    pub made: u32,
    /// Whether one of them failed.
    pub failed: bool,
}

impl Reads {
    /// No read.
    pub fn none() -> Reads
        ensures { IsFresh result }
    {
        Reads {
            made: 0,
            failed: false,
        }
    }
}

/// One read, counted.
fn read_once<R: Read>(reader: &mut R, reads: &mut Reads, chunk: &mut [u8]) -> io::Result<usize>
    requires { reads.old.made < MOST_READS }
    ensures count { reads.new.made ≡ reads.old.made + 1 }
    ensures bytes { ReadConsumes (R.remaining reader.old) (R.remaining reader.new) result chunk.new }
    ensures bound { ReadsAtMost result chunk.new }
    ensures failed { OnErr result (reads.new.failed ≡ true) }
    ensures unfailed { IfOk result (λ n. reads.new.failed ≡ reads.old.failed) }
{
    reads.made += 1;
    let result = reader.read(chunk);
    if result.is_err() {
        reads.failed = true;
    }
    result
}

/// Reads to the end of the reader, at most `most` bytes, by at most 100,000,000 reads, and counts
/// them. After a read that failed there is no other.
pub fn read_all<R: Read>(alloc: Global, reader: &mut R, reads: &mut Reads, most: usize) -> ReadAll
    requires { IsFresh reads.old }
    ensures reads { reads.new.made ≤ MOST_READS }
    ensures bytes { IfBytes result (λ bytes. (length bytes ≤ most)
        × IfSome (R.remaining reader.old) (λ all. bytes ≡ all)
        × IsAtEnd (R.remaining reader.new)) }
    ensures too_long { IfTooLong result (IfSome (R.remaining reader.old) (λ all. most < length all)) }
    ensures failed { reads.new.failed ≡ true → result ≡ ReadAll.Fault }
    ensures fault { IfFault result ((reads.new.failed ≡ true) ⊎ (reads.new.made ≡ MOST_READS)) }
{
    let mut bytes = Vec::new(alloc);
    let mut chunk = [0u8; CHUNK];
    for _ in 0..MOST_READS {
        match read_once(reader, reads, &mut chunk) {
            Err(_) => return ReadAll::Fault,
            Ok(0) => return ReadAll::Bytes(bytes),
            Ok(count) => {
                if count > most - bytes.len() {
                    return ReadAll::TooLong;
                }
                if bytes.extend_from_slice(&chunk[..count]).is_err() {
                    return ReadAll::Memory;
                }
            }
        }
    }
    ReadAll::Fault
}

/// All bytes of the reader, which are at most `most`. More are refused as a bad text at place 0.
pub fn bytes_of<R: Read>(
    alloc: Global,
    reader: &mut R,
    reads: &mut Reads,
    most: usize,
) -> Result<Vec<u8>, Failure>
    requires { IsFresh reads.old }
    ensures bytes { IfOk result (λ bytes. IfSome (R.remaining reader.old) (λ all. bytes.items ≡ all)) }
    ensures failed { reads.new.failed ≡ true → result ≡ Err Failure.Read }
    ensures failure { IfErr result (IsOfReading most (R.remaining reader.old)) }
{
    match read_all(alloc, reader, reads, most) {
        ReadAll::Bytes(bytes) => Ok(bytes),
        ReadAll::TooLong => Err(Failure::Refused(Refusal::BadText(0))),
        ReadAll::Fault => Err(Failure::Read),
        ReadAll::Memory => Err(Failure::Refused(Refusal::Memory)),
    }
}
