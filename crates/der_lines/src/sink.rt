//! The sink of the answers.
ghost use Rattle.std.specs.Prelude.{◌≡◌, ◌≢◌, None, Some, IfOk, OnOk, OnErr, IsErrOf};
ghost use Rattle.std.specs.IoError.{error_kind};
ghost use Rattle.std.specs.Io.KnownBytes.{Appends, Keeps};
ghost use Rattle.der_lines.specs.Failure.{IsFaultOf, ReportsFailure, HasFailed};
ghost use Rattle.der_lines.specs.Sink.{AppendsFront, AppendsUpTo};

use crate::fault::Fault;
use std::io::{self, ErrorKind, Write};

/// Writes octets to a writer.
#[derive(Drop)]
pub struct OctetWriter<W> {
    /// The writer.
    pub writer: W,
    /// The kind of the error of the last write that failed or took no octet.
    pub failure: Option<ErrorKind>,
}

impl<W: Write> OctetWriter<W> {
    /// Makes an `OctetWriter` without a failed write.
    pub fn new(writer: W) -> OctetWriter<W>
        ensures writer { result.writer ≡ writer }
        ensures failure { result.failure ≡ None }
    {
        OctetWriter {
            writer,
            failure: None,
        }
    }

    /// Writes all of the octets; if a write fails, a beginning of them.
    pub fn put(&mut self, octets: &[u8]) -> Result<(), Fault>
        ensures ok { OnOk result
            (Appends (W.contents self.old.writer) (W.contents self.new.writer) octets.now) }
        ensures err { OnErr result
            (AppendsFront (W.contents self.old.writer) (W.contents self.new.writer) octets.now) }
        ensures reported { ReportsFailure Fault.Output self.old.failure self.new.failure result }
        ensures output { IsErrOf result Fault.Output → HasFailed self.new.failure }
        ensures not_input { result ≢ Err Fault.Input }
    {
        match write_all(&mut self.writer, octets) {
            Ok(()) => Ok(()),
            Err(error) => Err(self.fault(&error)),
        }
    }

    /// Records the error of a failed write, and returns its `Fault`.
    fn fault(&mut self, error: &io::Error) -> Fault
        ensures kept { self.new.writer ≡ self.old.writer }
        ensures failure { self.new.failure ≡ Some (error_kind error.now) }
        ensures fault { IsFaultOf Fault.Output (error_kind error.now) result }
        ensures not_input { result ≢ Fault.Input }
    {
        let kind = error.kind();
        self.failure = Some(kind);
        match kind {
            ErrorKind::OutOfMemory => Fault::Memory,
            _ => Fault::Output,
        }
    }
}

/// Writes all of the octets.
fn write_all<W: Write>(writer: &mut W, octets: &[u8]) -> io::Result<()>
    ensures ok { OnOk result (Appends (W.contents writer.old) (W.contents writer.new) octets.now) }
    ensures err { OnErr result
        (AppendsFront (W.contents writer.old) (W.contents writer.new) octets.now) }
{
    let mut rest = octets;
    for _ in 0..u64::MAX {
        if rest.is_empty() {
            return Ok(());
        }
        rest = write_some(writer, rest)?;
    }
    Err(io::Error::from(ErrorKind::TimedOut))
}

/// Writes a beginning of the octets, and returns the rest: all of them if a signal interrupts the
/// write.
fn write_some<'a, W: Write>(writer: &mut W, octets: &'a [u8]) -> io::Result<&'a [u8]>
    ensures ok { IfOk result (λ rest.
        AppendsUpTo (W.contents writer.old) (W.contents writer.new) octets.now rest.now) }
    ensures err { OnErr result (Keeps (W.contents writer.old) (W.contents writer.new)) }
{
    match writer.write(octets) {
        Ok(0) => Err(io::Error::from(ErrorKind::WriteZero)),
        Ok(count) => Ok(&octets[count..]),
        Err(error) if error.kind() == ErrorKind::Interrupted => Ok(octets),
        Err(error) => Err(error),
    }
}
