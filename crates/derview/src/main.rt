//! Reads lines, each a type's name, a space and hex digits. Writes for each line the canonical
//! encoding of the value that the digits encode, or the number of the error in them.
#![tactic(auto)]

use der_lines::{Fault, LineReader, OctetWriter, run};
use derview_names::TypeNames;
use std::io::{self, BufReader};
use std::process::ExitCode;

fn answer_all(rt: &(impl Input + Print + AllocGlobal)) -> Result<(), Fault> {
    let Ok(reader) = BufReader::new(rt.alloc(), rt.reader()) else {
        return Err(Fault::Memory);
    };
    let mut input = LineReader::new(reader, u64::MAX);
    let mut output = OctetWriter::new(io::writer(rt));
    run::<TypeNames, _, _>(rt.alloc(), &mut input, &mut output)
}

fn main(rt: HostRuntime) -> ExitCode {
    match answer_all(&rt) {
        Ok(()) => ExitCode::SUCCESS,
        Err(fault) => {
            let _ = eprintln!(rt; "derview: {fault}");
            ExitCode::FAILURE
        }
    }
}
