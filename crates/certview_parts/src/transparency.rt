//! Lists of signed certificate timestamps as text (RFC 6962 sections 3.2 and 3.3): octets in the
//! coding of TLS in an OCTET STRING.

use crate::hexadecimal::{push_digits, push_with_colons};
use crate::page::{Inner, Page, push_malformed};
use crate::part_name::PartName;
use crate::printer::Printer;
use der_asn1_types::asn1::OctetStringRef;
use der_asn1_types::{DateTime, Error, ErrorKind, FromDer, Tag};
use std::alloc::AllocError;
use std::fmt::Write;
use std::time::Duration;

/// The names of the numbers of hash algorithms, from 0 on (RFC 5246 section 7.4.1.4.1).
const HASHES: [&str; 7] = [
    "none", "md5", "sha1", "sha224", "sha256", "sha384", "sha512",
];

/// The names of the numbers of signature algorithms, from 0 on (RFC 5246 section 7.4.1.4.1).
const SIGNATURES: [&str; 4] = ["anonymous", "rsa", "dsa", "ecdsa"];

/// The contents of a signed certificate timestamp of version 1.
#[derive(Clone, Copy, Debug, PartialEq, Eq)]
struct Stamp<'a> {
    log: &'a [u8],
    milliseconds: u64,
    extensions: &'a [u8],
    hash: u8,
    algorithm: u8,
    signature: &'a [u8],
}

/// Adds each timestamp of a list.
pub fn push_stamps(printer: &mut Printer<'_>, inner: Inner<'_>) -> Result<(), AllocError> {
    match OctetStringRef::from_der(printer.alloc, inner.octets) {
        Ok(string) => match counted(string.as_bytes()) {
            Some((list, [])) => push_list(printer.page, inner.begin, list),
            _ => push_wrong(printer.page, inner.begin),
        },
        Err(error) => printer.push_malformed_value(inner, error),
    }
}

/// Adds the timestamps of a list, and a part that is the list of these.
fn push_list(page: &mut Page, begin: usize, list: &[u8]) -> Result<(), AllocError> {
    page.open_list(PartName::Timestamps)?;
    push_each(page, begin, list)?;
    page.close_list()
}

/// Adds the timestamps of a list, which must have at least one.
fn push_each(page: &mut Page, begin: usize, list: &[u8]) -> Result<(), AllocError> {
    if list.is_empty() {
        return push_wrong(page, begin);
    }
    let mut rest = list;
    for _ in 0..list.len() {
        if rest.is_empty() {
            break;
        }
        let Some((stamp, after)) = counted(rest) else {
            return push_wrong(page, begin);
        };
        push_stamp(page, begin, stamp)?;
        rest = after;
    }
    Ok(())
}

/// Adds a timestamp, or its octets if its version is unknown.
fn push_stamp(page: &mut Page, begin: usize, octets: &[u8]) -> Result<(), AllocError> {
    match octets {
        [0, rest @ ..] => match stamp_of(rest) {
            Some(stamp) => push_fields(page, &stamp),
            None => push_wrong(page, begin),
        },
        [version, rest @ ..] => {
            page.open(PartName::Item)?;
            push_other_version(page, *version, rest)?;
            page.close()
        }
        [] => push_wrong(page, begin),
    }
}

/// Adds the number and the octets of a timestamp of an unknown version.
fn push_other_version(page: &mut Page, version: u8, octets: &[u8]) -> Result<(), AllocError> {
    page.text.push_str(", version ")?;
    let begin = page.text.len();
    write!(page.text, "{version}")?;
    page.mark(PartName::Version, begin)?;
    page.text.push_str(" #")?;
    push_octets(page, PartName::Octets, octets)
}

fn push_octets(page: &mut Page, part: PartName, octets: &[u8]) -> Result<(), AllocError> {
    let begin = page.text.len();
    push_digits(page, octets)?;
    page.mark(part, begin)
}

/// Adds the version, the log, the time, the algorithm and the extensions.
fn push_fields(page: &mut Page, stamp: &Stamp<'_>) -> Result<(), AllocError> {
    page.open(PartName::Item)?;
    page.text.push_str(", ")?;
    page.push_part(PartName::Version, "v1")?;
    push_log(page, stamp.log)?;
    push_moment(page, stamp.milliseconds)?;
    push_signature(page, stamp)?;
    if !stamp.extensions.is_empty() {
        page.text.push_str(" extensions #")?;
        push_octets(page, PartName::Extensions, stamp.extensions)?;
    }
    page.close()
}

/// Adds the identifier of a log.
fn push_log(page: &mut Page, log: &[u8]) -> Result<(), AllocError> {
    page.text.push_str(" of log ")?;
    let begin = page.text.len();
    push_with_colons(page, log)?;
    page.mark(PartName::Log, begin)
}

/// Adds the algorithm of a signature, and the number of its octets.
fn push_signature(page: &mut Page, stamp: &Stamp<'_>) -> Result<(), AllocError> {
    page.text.push(' ')?;
    let begin = page.text.len();
    push_named(page, &HASHES, stamp.hash)?;
    page.text.push('-')?;
    push_named(page, &SIGNATURES, stamp.algorithm)?;
    page.mark(PartName::SignatureAlgorithm, begin)?;
    page.text.push(' ')?;
    let (begin, count) = (page.text.len(), stamp.signature.len());
    write!(page.text, "{count} octets")?;
    page.mark(PartName::Signature, begin)
}

/// Adds a time in milliseconds since 1970, and a part that is this text.
fn push_moment(page: &mut Page, milliseconds: u64) -> Result<(), AllocError> {
    page.text.push(' ')?;
    let begin = page.text.len();
    push_milliseconds(page, milliseconds)?;
    page.mark(PartName::Time, begin)
}

/// Adds a time in milliseconds since 1970.
fn push_milliseconds(page: &mut Page, milliseconds: u64) -> Result<(), AllocError> {
    let parts = milliseconds % 1000;
    match DateTime::from_unix_duration(Duration::from_secs(milliseconds / 1000)) {
        Ok(time) => {
            let (year, month, day) = (time.year(), time.month(), time.day());
            let (hour, minutes, seconds) = (time.hour(), time.minutes(), time.seconds());
            write!(page.text, "{year:04}-{month:02}-{day:02} ")?;
            write!(
                page.text,
                "{hour:02}:{minutes:02}:{seconds:02}.{parts:03} UTC"
            )
        }
        Err(_) => write!(page.text, "{milliseconds} ms"),
    }
}

fn push_named(page: &mut Page, names: &[&'static str], number: u8) -> Result<(), AllocError> {
    match names.get(number as usize) {
        Some(name) => page.text.push_str(name),
        None => write!(page.text, "{number}"),
    }
}

/// Adds that octets are no list in the coding of TLS.
fn push_wrong(page: &mut Page, begin: usize) -> Result<(), AllocError> {
    page.text.push_str(", ")?;
    let kind = ErrorKind::Length {
        tag: Tag::OctetString,
    };
    push_malformed(page, begin, Error::from_kind(kind))
}

/// Splits octets that begin with a two-octet number: returns that number of octets, and the
/// octets after them.
fn counted(octets: &[u8]) -> Option<(&[u8], &[u8])> {
    let [high, low, rest @ ..] = octets else {
        return None;
    };
    let count = usize::from(u16::from_be_bytes([*high, *low]));
    Some((rest.get(..count)?, rest.get(count..)?))
}

/// Returns the fields after a version of 1: the log, the time, the extensions, the algorithms and
/// the signature.
fn stamp_of(octets: &[u8]) -> Option<Stamp<'_>> {
    let log = octets.get(..32)?;
    let [a, b, c, d, e, f, g, h, rest @ ..] = octets.get(32..)? else {
        return None;
    };
    let milliseconds = u64::from_be_bytes([*a, *b, *c, *d, *e, *f, *g, *h]);
    let (extensions, rest) = counted(rest)?;
    let [hash, algorithm, rest @ ..] = rest else {
        return None;
    };
    let (signature, rest) = counted(rest)?;
    if !rest.is_empty() {
        return None;
    }
    Some(Stamp {
        log,
        milliseconds,
        extensions,
        hash: *hash,
        algorithm: *algorithm,
        signature,
    })
}
