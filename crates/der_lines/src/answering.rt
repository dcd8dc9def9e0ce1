//! Reading lines and writing answers.
ghost use Rattle.std.specs.Prelude.{◌≡◌, ◌⊎◌, [], Some, IfSome, OnOk, OnErr, IsErrOf};
ghost use Rattle.std.specs.Io.KnownBytes.{Appends};
ghost use Rattle.der_lines.specs.Failure.{ReportsFailure, HasFailed};
ghost use Rattle.std.specs.List.{All};
ghost use Rattle.der_lines.specs.Answer.{NotRefusedForMemory};
ghost use Rattle.der_lines.specs.Lines.{lines_of, replies_to};
ghost use Rattle.der_lines.specs.Run.{AnswersWholeLines, AnswersAllButOne, WritesBeginning, HasTooManyLines};

use crate::answer::Room;
use crate::fault::Fault;
use crate::names::Names;
use crate::sink::OctetWriter;
use crate::source::LineReader;
use std::alloc::Global;
use std::io::{BufRead, Write};

/// Answers each line of the input, before it reads the next.
pub fn run<N: Names, R: BufRead, W: Write>(
    alloc: Global,
    input: &mut LineReader<R>,
    output: &mut OctetWriter<W>,
) -> Result<(), Fault>
    // All lines were read and answered.
    ensures ok { OnOk result (IfSome (R.remaining input.old.reader) (λ text.
        Appends (W.contents output.old.writer) (W.contents output.new.writer)
        (replies_to N.table text))) }
    // No line is answered because memory ran out (1); the run ends instead.
    ensures memory { OnOk result (IfSome (R.remaining input.old.reader) (λ text.
        All (NotRefusedForMemory N.table) (lines_of text))) }
    ensures ended { OnOk result (IfSome (R.remaining input.old.reader) (λ _.
        R.remaining input.new.reader ≡ Some [])) }

    // After an error, a beginning of the replies was written.
    ensures beginning { OnErr result (IfSome (R.remaining input.old.reader) (λ text.
        WritesBeginning N.table text
        (W.contents output.old.writer) (W.contents output.new.writer))) }
    ensures prompt { OnErr result (IfSome (R.remaining input.old.reader) (λ text.
        AnswersAllButOne N.table text (R.remaining input.new.reader)
        (W.contents output.old.writer) (W.contents output.new.writer))) }
    ensures exact { IsErrOf result Fault.Input → IfSome (R.remaining input.old.reader) (λ text.
        AnswersWholeLines N.table text (R.remaining input.new.reader)
        (W.contents output.old.writer) (W.contents output.new.writer)) }

    // Each `Fault` has its cause, and the kind of the error of a failed read or write is kept.
    ensures input { IsErrOf result Fault.Input → HasFailed input.new.failure
        ⊎ HasTooManyLines (R.remaining input.old.reader) input.old.lines_left input.new.lines_left }
    ensures reported_read { ReportsFailure Fault.Input input.old.failure input.new.failure result }
    ensures output { IsErrOf result Fault.Output → HasFailed output.new.failure }
    ensures reported_write { ReportsFailure Fault.Output output.old.failure output.new.failure result }
{
    let mut line = Vec::new(alloc);
    let mut room = Room::new(alloc);
    'lines: while input.next_line(&mut line)? {
        room.answer::<N>(alloc, &mut line)?;
        output.put(&line)?;
    }
    Ok(())
}
