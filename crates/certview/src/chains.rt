//! The path from a trust anchor to the first certificate of the files.

use crate::options::{File, Request};
use crate::{octets_of, told};
use certview_text::{Fault, add_certificates, show_path};
use der_asn1_types::DateTime;
use std::io;
use std::time::{SystemTime, UNIX_EPOCH};

/// Shows the path from one of the anchors of a file to the first certificate of the others, and
/// returns the status.
pub fn show_path_of(rt: &HostRuntime, request: &Request<'_>, anchors: &File<'_>) -> u8 {
    let mut certificates = Vec::new(rt.alloc());
    for file in request.files.as_slice() {
        if let Err(fault) = add_file(rt, file, &mut certificates) {
            return told(rt, file.name.as_str(), fault);
        }
    }
    let mut trusted = Vec::new(rt.alloc());
    if let Err(fault) = add_file(rt, anchors, &mut trusted) {
        return told(rt, anchors.name.as_str(), fault);
    }
    let seconds = match seconds_at(rt, request.asked.moment) {
        Ok(seconds) => seconds,
        Err(fault) => return told(rt, "-", fault),
    };
    match show_path(
        rt.alloc(),
        certificates.as_slice(),
        trusted.as_slice(),
        seconds,
        &mut io::writer(rt),
    ) {
        Ok(outcome) => outcome.status(),
        Err(fault) => told(rt, "-", fault),
    }
}

/// Adds the certificates of a file.
fn add_file(
    rt: &HostRuntime,
    file: &File<'_>,
    certificates: &mut Vec<Vec<u8>>,
) -> Result<(), Fault> {
    let octets = octets_of(rt, file.word)?;
    add_certificates(rt.alloc(), octets.as_slice(), certificates)
}

/// Returns the seconds from 1970-01-01T00:00:00Z to a moment, or to now.
fn seconds_at(rt: &HostRuntime, moment: Option<DateTime>) -> Result<u64, Fault> {
    match moment {
        Some(moment) => Ok(moment.unix_duration().as_secs()),
        None => seconds_now(rt),
    }
}

/// Returns the seconds from 1970-01-01T00:00:00Z to now.
fn seconds_now(rt: &HostRuntime) -> Result<u64, Fault> {
    let Ok(now) = SystemTime::now(rt) else {
        return Err(Fault::Input);
    };
    match now.duration_since(UNIX_EPOCH) {
        Ok(duration) => Ok(duration.as_secs()),
        Err(_) => Err(Fault::Input),
    }
}
