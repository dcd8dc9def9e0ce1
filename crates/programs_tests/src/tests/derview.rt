//! Whole runs over memory, and runs whose reader or writer fails.

mod algorithm_identifier;
mod beginnings;

use der_lines::{Fault, LineReader, OctetWriter, run};
use derview_names::TypeNames;
use std::alloc::Global;
use std::io::{self, BufReader, ErrorKind, Read, Write};
use std::test::Fail;

/// Returns the result of a run over memory and the octets that it writes.
fn answers(alloc: Global, text: &[u8]) -> (Result<(), Fault>, Vec<u8>) {
    let mut written = Vec::new(alloc);
    let mut input = LineReader::new(text, u64::MAX);
    let result = run::<TypeNames, _, _>(alloc, &mut input, &mut OctetWriter::new(&mut written));
    (result, written)
}

#[test]
fn answers_lines(rt: HostRuntime) {
    let rows: [(&[u8], &[u8]); 24] = [
        (b"", b""),
        (b"\n", b"bad line\n"),
        (b"bool 0101ff", b"ok 0101ff\n"),
        (b"bool 0101ff\n", b"ok 0101ff\n"),
        (b"bool 0101FF\n", b"ok 0101ff\n"),
        (b"bool 0101fF\nbool 010100", b"ok 0101ff\nok 010100\n"),
        (b"bool 0101\n", b"refused 2\n"),
        (b"bool 0101ff00\n", b"refused 3\n"),
        (b"bool 010101\n", b"refused 8\n"),
        (b"bool -\n", b"refused 2\n"),
        (b"unit 0500\n", b"ok 0500\n"),
        (b"unit 050100\n", b"refused 7\n"),
        (b"unit \n", b"bad line\n"),
        (b"unit\n", b"bad line\n"),
        (b"unit 0500-\n", b"bad line\n"),
        (b"none 00\n", b"bad line\n"),
        (b" 00\n", b"bad line\n"),
        (b"bool  0101ff\n", b"bad line\n"),
        (b"bool 0101ff \n", b"bad line\n"),
        (b"bool 0101f\n", b"bad line\n"),
        (b"bool 0101ff\r\n", b"bad line\n"),
        (b"bool\t0101ff\nBool 0101ff\n", b"bad line\nbad line\n"),
        (
            b"bool 01\x0001ff\nbool\x00 0101ff\n",
            b"bad line\nbad line\n",
        ),
        (
            b"\xff\xfe 00\nbool \xc3\xa9\n\n\n",
            b"bad line\nbad line\nbad line\nbad line\n",
        ),
    ];
    for (text, want) in rows {
        let (result, written) = answers(rt.alloc(), text);
        assert_eq!(rt; result, Ok(()), "at {text:?}");
        assert_eq!(rt; written.as_slice(), want, "at {text:?}");
    }
}

#[test]
fn answers_a_long_line(rt: HostRuntime) -> Result<(), Fail> {
    let mut text = Vec::from_slice(rt.alloc(), b"bool ")?;
    for _ in 0..1 << 20 {
        text.push(b'0')?;
    }
    text.extend_from_slice(b"\nunit 0500")?;
    let (result, written) = answers(rt.alloc(), &text);
    assert_eq!(rt; result, Ok(()));
    assert_eq!(rt; written.as_slice(), b"refused 5\nok 0500\n".as_slice());
    Ok(())
}

#[test]
fn refuses_too_many_lines(rt: HostRuntime) {
    let rows: [(&[u8], Result<(), Fault>, &[u8]); 4] = [
        (b"unit 0500\nunit 0500\n", Ok(()), b"ok 0500\nok 0500\n"),
        (b"unit 0500\nunit 0500", Ok(()), b"ok 0500\nok 0500\n"),
        (
            b"unit 0500\nunit 0500\n\n",
            Err(Fault::Input),
            b"ok 0500\nok 0500\n",
        ),
        (
            b"unit 0500\nunit 0500\nunit",
            Err(Fault::Input),
            b"ok 0500\nok 0500\n",
        ),
    ];
    for (text, want, answers) in rows {
        let mut written = Vec::new(rt.alloc());
        let mut input = LineReader::new(text, 2);
        let result = run::<TypeNames, _, _>(
            rt.alloc(),
            &mut input,
            &mut OctetWriter::new(&mut written),
        );
        assert_eq!(rt; result, want, "at {text:?}");
        assert_eq!(rt; written.as_slice(), answers, "at {text:?}");
    }
}

/// A reader that gives its octets three at a time, each after an interruption, and then fails.
#[derive(Drop)]
struct FailingReader<'a> {
    text: &'a [u8],
    is_interrupted: bool,
    kind: ErrorKind,
}

impl Read for FailingReader<'_> {
    fn read(&mut self, buf: &mut [u8]) -> io::Result<usize> {
        self.is_interrupted = !self.is_interrupted;
        if self.is_interrupted {
            return Err(io::Error::from(ErrorKind::Interrupted));
        }
        if self.text.is_empty() {
            return Err(io::Error::from(self.kind));
        }
        let count = buf.len().min(self.text.len()).min(3);
        buf[..count].copy_from_slice(&self.text[..count]);
        self.text = &self.text[count..];
        Ok(count)
    }
}

#[test]
fn stops_where_a_read_fails(rt: HostRuntime) -> Result<(), Fail> {
    let rows: [(&[u8], &[u8]); 6] = [
        (b"", b""),
        (b"unit 0500", b""),
        (b"unit 0500\n", b"ok 0500\n"),
        (b"unit 0500\nuni", b"ok 0500\n"),
        (
            b"unit 0500\n\n\nbool 0101ff",
            b"ok 0500\nbad line\nbad line\n",
        ),
        (b"unit 0500\nbool 0101ff\n", b"ok 0500\nok 0101ff\n"),
    ];
    let faults = [
        (ErrorKind::Other, Fault::Input),
        (ErrorKind::WouldBlock, Fault::Input),
        (ErrorKind::OutOfMemory, Fault::Memory),
    ];
    for (text, want) in rows {
        for (kind, fault) in faults {
            let mut written = Vec::new(rt.alloc());
            let reader = BufReader::new(
                rt.alloc(),
                FailingReader {
                    text,
                    is_interrupted: false,
                    kind,
                },
            )?;
            let mut input = LineReader::new(reader, u64::MAX);
            let result = run::<TypeNames, _, _>(
                rt.alloc(),
                &mut input,
                &mut OctetWriter::new(&mut written),
            );
            assert_eq!(rt; result, Err(fault), "at {text:?}");
            assert!(rt; input.failure == Some(kind), "at {text:?}");
            assert_eq!(rt; written.as_slice(), want, "at {text:?}");
        }
    }
    Ok(())
}

/// A writer that accepts two octets at a time, each after an interruption. When it is full, it
/// fails or accepts none.
#[derive(Drop)]
struct FailingWriter<'a> {
    written: &'a mut Vec<u8>,
    room: usize,
    is_interrupted: bool,
    kind: Option<ErrorKind>,
}

impl Write for FailingWriter<'_> {
    fn write(&mut self, buf: &[u8]) -> io::Result<usize> {
        self.is_interrupted = !self.is_interrupted;
        if self.is_interrupted {
            return Err(io::Error::from(ErrorKind::Interrupted));
        }
        if self.room == 0 {
            return match self.kind {
                Some(kind) => Err(io::Error::from(kind)),
                None => Ok(0),
            };
        }
        let count = buf.len().min(self.room).min(2);
        self.written.extend_from_slice(&buf[..count])?;
        self.room -= count;
        Ok(count)
    }

    fn flush(&mut self) -> io::Result<()> {
        Ok(())
    }
}

#[test]
fn stops_where_a_write_fails(rt: HostRuntime) {
    let text: &[u8] = b"unit 0500\nunit\nbool 0101FF\nbool 0101";
    let want: &[u8] = b"ok 0500\nbad line\nok 0101ff\nrefused 2\n";
    let faults = [
        (Some(ErrorKind::Other), Fault::Output),
        (Some(ErrorKind::OutOfMemory), Fault::Memory),
        (None, Fault::Output),
    ];
    for room in 0..=want.len() {
        for (kind, fault) in faults {
            let mut written = Vec::new(rt.alloc());
            let mut input = LineReader::new(text, u64::MAX);
            let mut output = OctetWriter::new(FailingWriter {
                written: &mut written,
                room,
                is_interrupted: false,
                kind,
            });
            let result = run::<TypeNames, _, _>(rt.alloc(), &mut input, &mut output);
            let expected = if room == want.len() {
                Ok(())
            } else {
                Err(fault)
            };
            assert_eq!(rt; result, expected, "with room for {room}");
            assert_eq!(rt; written.as_slice(), &want[..room], "with room for {room}");
        }
    }
}
