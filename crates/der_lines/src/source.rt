//! The source of the lines.
ghost use Rattle.std.specs.Prelude.{◌≡◌, ◌≢◌, ◌+◌, true, false, None, Some, IfOk, OnOk, OnErr, IsErrOf};
ghost use Rattle.std.specs.IoError.{error_kind};
ghost use Rattle.std.specs.Io.KnownBytes.{IsAtEnd, Keeps};
ghost use Rattle.der_lines.specs.Failure.{IsFaultOf, ReportsFailure};
ghost use Rattle.der_lines.specs.Source.{TakesLine, TakesPart, IsRefused};

use crate::fault::Fault;
use crate::lines::{has_more, read_line};
use std::io::{self, BufRead, ErrorKind};

/// The lines of a reader. At most a given number of lines is read.
#[derive(Drop)]
pub struct LineReader<R> {
    /// The reader.
    pub reader: R,
    /// The number of lines that may still be read.
    pub lines_left: u64,
    /// The kind of the error of the last read that failed.
    pub failure: Option<ErrorKind>,
}

impl<R: BufRead> LineReader<R> {
    /// Makes a `LineReader` without a failed read.
    pub fn new(reader: R, lines_left: u64) -> LineReader<R>
        ensures reader { result.reader ≡ reader }
        ensures lines_left { result.lines_left ≡ lines_left }
        ensures failure { result.failure ≡ None }
    {
        LineReader {
            reader,
            lines_left,
            failure: None,
        }
    }

    /// Replaces the octets of `line` by the next line, without its LF. Returns whether there was
    /// one.
    pub fn next_line(&mut self, line: &mut Vec<u8>) -> Result<bool, Fault>
        ensures line { result ≡ Ok true →
            TakesLine (R.remaining self.old.reader) line.new.items (R.remaining self.new.reader) }
        ensures fewer { result ≡ Ok true → self.old.lines_left ≡ self.new.lines_left + 1 }
        ensures no_fewer { result ≢ Ok true → self.new.lines_left ≡ self.old.lines_left }
        ensures end { result ≡ Ok false → IsAtEnd (R.remaining self.old.reader) }
        ensures ended { result ≡ Ok false →
            Keeps (R.remaining self.old.reader) (R.remaining self.new.reader) }
        ensures reported { ReportsFailure Fault.Input self.old.failure self.new.failure result }

        // A line that is cut short is no line.
        ensures err { OnErr result
            (TakesPart (R.remaining self.old.reader) (R.remaining self.new.reader)) }
        ensures input { IsErrOf result Fault.Input →
            IsRefused self.new.failure self.old.lines_left (R.remaining self.old.reader) }
        ensures not_output { result ≢ Err Fault.Output }
    {
        if self.lines_left == 0 {
            return self.check_end();
        }
        match read_line(&mut self.reader, line) {
            Ok(is_line) => {
                self.lines_left -= u64::from(is_line);
                Ok(is_line)
            }
            Err(error) => Err(self.fault(&error)),
        }
    }

    /// Records the error of a failed read, and returns its `Fault`.
    fn fault(&mut self, error: &io::Error) -> Fault
        ensures reader { self.new.reader ≡ self.old.reader }
        ensures lines_left { self.new.lines_left ≡ self.old.lines_left }
        ensures failure { self.new.failure ≡ Some (error_kind error.now) }
        ensures fault { IsFaultOf Fault.Input (error_kind error.now) result }
        ensures not_output { result ≢ Fault.Output }
    {
        let kind = error.kind();
        self.failure = Some(kind);
        match kind {
            ErrorKind::OutOfMemory => Fault::Memory,
            _ => Fault::Input,
        }
    }

    /// Returns that there is no line, or an error if there are more lines.
    fn check_end(&mut self) -> Result<bool, Fault>
        ensures none { IfOk result (λ is_line. is_line ≡ false) }
        ensures end { OnOk result (IsAtEnd (R.remaining self.old.reader)) }
        ensures kept { Keeps (R.remaining self.old.reader) (R.remaining self.new.reader) }
        ensures reported { ReportsFailure Fault.Input self.old.failure self.new.failure result }
        ensures no_fewer { self.new.lines_left ≡ self.old.lines_left }
        ensures input { IsErrOf result Fault.Input →
            IsRefused self.new.failure 0 (R.remaining self.old.reader) }
        ensures not_output { result ≢ Err Fault.Output }
    {
        match has_more(&mut self.reader) {
            Ok(false) => Ok(false),
            Ok(true) => Err(Fault::Input),
            Err(error) => Err(self.fault(&error)),
        }
    }
}
