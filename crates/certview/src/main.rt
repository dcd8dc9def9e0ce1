//! Reads X.509 certificates, lists of revoked certificates, keys, requests, OCSP, CMS, time
//! stamps, PKCS #12 files and parameters, in DER or as PEM text, from files or from standard
//! input, and prints their fields. With the argument `lines` it reads lines, each a message's
//! name, a space and hex digits, and writes a result for each.
#![tactic(auto)]

use certview_names::MessageNames;
use certview_text::{Fault, FieldName, Outcome, View, plain, read_input, show, show_refused};
use chains::show_path_of;
use der_lines::{Fault as LineFault, LineReader, OctetWriter};
use lines::{asks_for_lines, fault_of_run};
use options::{File, Request, request_of};
use std::fs;
use std::io::{self, BufReader, IsTerminal};
use std::process::ExitCode;
use words::{is_text, words_of};

mod chains;
mod lines;
mod options;
mod words;

fn input_fault(error: &io::Error) -> Fault {
    match error.kind() {
        io::ErrorKind::OutOfMemory => Fault::Memory,
        _ => Fault::Input,
    }
}

fn answer_lines(rt: &HostRuntime) -> Result<(), Fault> {
    let Ok(reader) = BufReader::new(rt.alloc(), rt.reader()) else {
        return Err(Fault::Memory);
    };
    let mut input = LineReader::new(reader, u64::MAX);
    let mut output = OctetWriter::new(io::writer(rt));
    match der_lines::run::<MessageNames, _, _>(rt.alloc(), &mut input, &mut output) {
        Ok(()) => Ok(()),
        Err(LineFault::Output) if output.failure == Some(io::ErrorKind::BrokenPipe) => Ok(()),
        Err(fault) => Err(fault_of_run(fault)),
    }
}

/// Shows the path or the files that are asked for, and returns the status.
fn show_request(rt: &HostRuntime, request: &Request<'_>) -> u8 {
    match &request.anchors {
        Some(anchors) => show_path_of(rt, request, anchors),
        None => show_files(rt, request),
    }
}

/// What to do after a file.
#[derive(Clone, Copy, Debug, PartialEq, Eq)]
enum Next {
    /// Continue with the next file; the status of this one.
    Goes(u8),
    /// Stop, because no one reads the output or a write failed; the status.
    Ends(u8),
}

/// Shows each file and returns the greatest status. If no one reads on, or if a write failed, the
/// remaining files are not shown.
fn show_files(rt: &HostRuntime, request: &Request<'_>) -> u8 {
    let mut status = 0;
    for (number, file) in request.files.as_slice().iter().enumerate() {
        match show_one(rt, file, &request.view_of(number)) {
            Next::Goes(of_file) => status = of_file.max(status),
            Next::Ends(of_file) => return of_file.max(status),
        }
    }
    if request.is_json {
        return end_document(rt).max(status);
    }
    status
}

/// Ends the JSON document and returns the status.
fn end_document(rt: &HostRuntime) -> u8 {
    match print!(rt; "\n]}}\n") {
        Ok(()) => 0,
        Err(error) if error.kind() == io::ErrorKind::BrokenPipe => 0,
        Err(_) => told(rt, "-", Fault::Output),
    }
}

/// Shows a file.
fn show_one(rt: &HostRuntime, file: &File<'_>, view: &View<'_>) -> Next {
    let name = file.name.as_str();
    match octets_of(rt, file.word) {
        Ok(octets) => match show(rt.alloc(), view, octets.as_slice(), &mut io::writer(rt)) {
            Ok(Outcome::Closed(status)) => Next::Ends(status),
            Ok(outcome) => Next::Goes(outcome.status()),
            Err(Fault::Output) => Next::Ends(told(rt, name, Fault::Output)),
            Err(fault) => refuse(rt, name, view, fault, octets.as_slice()),
        },
        Err(fault) => refuse(rt, name, view, fault, &[]),
    }
}

/// Reports a refused file, and shows its readable fields.
fn refuse(rt: &HostRuntime, file: &str, view: &View<'_>, fault: Fault, octets: &[u8]) -> Next {
    let status = told(rt, file, fault);
    match show_refused(rt.alloc(), view, &fault, octets, &mut io::writer(rt)) {
        Ok(Outcome::Closed(_)) => Next::Ends(status),
        Ok(_) => Next::Goes(status),
        Err(fault) => Next::Ends(told(rt, file, fault).max(status)),
    }
}

/// Reads the octets of a file, or of standard input.
pub fn octets_of(rt: &HostRuntime, file: &str) -> Result<Vec<u8>, Fault> {
    if file != "-" {
        return octets_of_file(rt, file);
    }
    if rt.stdin().is_terminal() {
        let _ = eprintln!(rt;
            "certview: waiting for a message on standard input (certview --help)"
        );
    }
    read_input(rt.alloc(), &mut rt.reader())
}

/// Reads the octets of the file that this word names. The standard library opens a file only by a
/// name that is text.
fn octets_of_file(rt: &HostRuntime, word: &str) -> Result<Vec<u8>, Fault> {
    if !is_text(word) {
        return Err(Fault::Name);
    }
    match fs::open(rt, word) {
        Ok(mut file) => read_input(rt.alloc(), &mut file),
        Err(error) => Err(input_fault(&error)),
    }
}

/// Reports on standard error a file that is not shown, and returns the status.
pub fn told(rt: &HostRuntime, file: &str, fault: Fault) -> u8 {
    let _ = match plain(rt.alloc(), file) {
        Ok(name) if file != "-" => eprintln!(rt; "certview: {name}: {fault}"),
        _ => eprintln!(rt; "certview: {fault}"),
    };
    fault.status()
}

/// Returns whether the only argument asks for lines.
fn wants_lines(words: &[String]) -> bool {
    match words {
        [_, word] => asks_for_lines(word.as_str()),
        _ => false,
    }
}

/// Does what the words ask for and returns the status.
fn answer(rt: &HostRuntime, words: &[String]) -> Result<u8, Fault> {
    if wants_lines(words) {
        answer_lines(rt)?;
        return Ok(0);
    }
    let names = FieldName::names(rt.alloc())?;
    match request_of(rt.alloc(), words, names.as_slice()) {
        Ok(request) => Ok(show_request(rt, &request)),
        Err(error) => match error.print(rt) {
            Ok(()) => Ok(error.exit_code() as u8),
            Err(_) => Err(Fault::Output),
        },
    }
}

fn main(rt: HostRuntime) -> ExitCode {
    let answered = match words_of(&rt) {
        Ok(words) => answer(&rt, words.as_slice()),
        Err(error) => Err(Fault::from(error)),
    };
    match answered {
        Ok(status) => ExitCode::from(status),
        Err(fault) => {
            let _ = eprintln!(rt; "certview: {fault}");
            ExitCode::from(fault.status())
        }
    }
}
