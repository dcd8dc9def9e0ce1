//! A path from a trust anchor to a certificate (RFC 5280 section 6), as text.

use crate::fault::{Fault, refusal};
use crate::kind::Kind;
use crate::label::kind_with;
use crate::pem::{Blocks, is_text, octets_of};
use crate::steps::words_of_step;
use crate::trust_settings::count_of_message;
use crate::viewing::{Outcome, write_text};
use certview_parts::characters::Behind;
use certview_parts::names::push_places;
use certview_parts::page::Page;
use certview_parts::printer::Printer;
use der_asn1_types::FromDer;
use der_modules::copy_of;
use der_path::{
    Anchor, FIRST, FindError, FoundPath, Inputs, PathError, Policy, RefusedPath, Search, find_path,
};
use der_pkix::certificate::Certificate;
use der_pkix::name::Name;
use std::alloc::{AllocError, Global};
use std::io::Write;

/// The contents octets of anyPolicy, 2.5.29.32.0.
const ANY_POLICY: [u8; 4] = [0x55, 0x1d, 0x20, 0x00];

/// The greatest number of certificates in a path.
const DEPTH: usize = 16;

/// The greatest number of chains that are looked at.
const LIMIT: usize = 10_000;

/// Adds the octets of each certificate of an input: those of each block of PEM text with the label
/// of a certificate, or all octets.
///
/// # Errors
/// The error of a block that cannot be decoded; `Empty` for an empty input; `Memory` if memory
/// runs out.
pub fn add_certificates(
    alloc: Global,
    input: &[u8],
    certificates: &mut Vec<Vec<u8>>,
) -> Result<(), Fault> {
    if input.is_empty() {
        return Err(Fault::Empty);
    }
    if is_text(input) {
        return add_blocks(alloc, input, certificates);
    }
    Ok(add_octets(alloc, input, certificates)?)
}

/// Adds the octets of each block of PEM text with the label of a certificate.
fn add_blocks(alloc: Global, text: &[u8], certificates: &mut Vec<Vec<u8>>) -> Result<(), Fault> {
    let mut blocks = Blocks::of(text);
    for _ in 0..Blocks::count(text) {
        let Some(block) = blocks.next_block() else {
            break;
        };
        if kind_with(block.label) == Some(Kind::Certificate) {
            let message = octets_of(alloc, &block)?;
            let octets = message.as_slice();
            let count = count_of_message(block.label, octets);
            add_octets(alloc, &octets[..count], certificates)?;
        }
    }
    Ok(())
}

/// Adds a copy of these octets.
fn add_octets(
    alloc: Global,
    octets: &[u8],
    certificates: &mut Vec<Vec<u8>>,
) -> Result<(), AllocError> {
    let copy = Vec::from_slice(alloc, octets)?;
    certificates.push(copy)?;
    Ok(())
}

/// Writes the path from one of the anchors to the first certificate, at a moment in seconds from
/// 1970-01-01T00:00:00Z: a line that says that no signature was verified, and a line for the
/// anchor and for each certificate. The other certificates may be in any order.
///
/// The result is `Whole` if there is a path, else `Found`.
///
/// # Errors
/// `Refused` if an anchor or the first certificate cannot be read; `Empty` if there is none;
/// `Output` if a write fails; `Memory` if memory runs out.
pub fn show_path<'a, W: Write>(
    alloc: Global,
    certificates: &'a [Vec<u8>],
    anchors: &'a [Vec<u8>],
    moment: u64,
    output: &mut W,
) -> Result<Outcome, Fault> {
    let mut page = Page::new(alloc);
    let trusted = anchors_of(alloc, anchors)?;
    push_path(alloc, &mut page, certificates, trusted.as_slice(), moment)?;
    let outcome = if page.has_findings {
        Outcome::Found
    } else {
        Outcome::Whole
    };
    write_text(output, page.text.as_str(), outcome)
}

/// Returns the name and the key of each of these certificates.
fn anchors_of<'a>(alloc: Global, certificates: &'a [Vec<u8>]) -> Result<Vec<Anchor<'a>>, Fault> {
    let mut anchors = Vec::new(alloc);
    for octets in certificates {
        let anchor = anchor_of(alloc, octets.as_slice())?;
        let Ok(()) = anchors.push(anchor) else {
            return Err(Fault::Memory);
        };
    }
    Ok(anchors)
}

/// Returns the name and the key of a certificate.
fn anchor_of<'a>(alloc: Global, octets: &'a [u8]) -> Result<Anchor<'a>, Fault> {
    match Certificate::from_der(alloc, octets) {
        Ok(certificate) => {
            let signed = certificate.tbs_certificate();
            Ok(Anchor {
                name: copy_of(signed.subject()),
                key: copy_of(signed.subject_public_key_info()),
            })
        }
        Err(error) => Err(refusal(Kind::Certificate, octets, error)),
    }
}

/// Adds the lines of the path to the first of these certificates.
fn push_path<'a>(
    alloc: Global,
    page: &mut Page,
    certificates: &'a [Vec<u8>],
    anchors: &[Anchor<'a>],
    moment: u64,
) -> Result<(), Fault> {
    let given = slices_of(alloc, certificates)?;
    let [end, others @ ..] = given.as_slice() else {
        return Err(Fault::Empty);
    };
    let policies = [Policy {
        octets: &ANY_POLICY,
    }];
    let inputs = Inputs {
        moment,
        policies: &policies,
        mapping_inhibit: false,
        explicit_policy: false,
        any_policy_inhibit: false,
        constraints: None,
    };
    let search = Search {
        anchors,
        certificates: others,
        end: *end,
        depth: DEPTH,
        limit: LIMIT,
        start: FIRST,
    };
    push_answer(alloc, page, anchors, *end, find_path(alloc, search, inputs))
}

/// Returns the octets of each of these.
fn slices_of<'a>(alloc: Global, certificates: &'a [Vec<u8>]) -> Result<Vec<&'a [u8]>, AllocError> {
    let mut slices = Vec::new(alloc);
    for octets in certificates {
        slices.push(octets.as_slice())?;
    }
    Ok(slices)
}

/// Adds the lines of what was found.
fn push_answer(
    alloc: Global,
    page: &mut Page,
    anchors: &[Anchor<'_>],
    end: &[u8],
    answer: Result<FoundPath<'_>, FindError<'_>>,
) -> Result<(), Fault> {
    match answer {
        Ok(found) => Ok(push_found(alloc, page, anchors, &found)?),
        Err(FindError::NotRead(error)) => Err(refusal(Kind::Certificate, end, error)),
        Err(FindError::Memory) => Err(Fault::Memory),
        Err(FindError::Limit) => Ok(push_nothing(page, TOO_MANY)?),
        Err(FindError::NoPath(None)) => Ok(push_nothing(page, NO_CHAIN)?),
        Err(FindError::NoPath(Some(refused))) => Ok(push_refused(alloc, page, anchors, &refused)?),
    }
}

/// What is said if no chain leads to an anchor.
const NO_CHAIN: &str = "no path: no chain of these certificates leads to an anchor\n";

/// What is said if the search ended at its limit.
const TOO_MANY: &str = "no path: there are more chains of these certificates than are looked at\n";

/// What is said before the certificates of a path.
const VALID: &str = "a path, if each signature verifies; none was verified\n";

/// What is said before the certificates of a chain that is refused.
const REFUSED: &str = "no path; no signature was verified\n";

/// Adds a line that says that there is no path.
fn push_nothing(page: &mut Page, words: &str) -> Result<(), AllocError> {
    page.has_findings = true;
    page.text.push_str(words)
}

/// Adds the lines of a path.
fn push_found(
    alloc: Global,
    page: &mut Page,
    anchors: &[Anchor<'_>],
    found: &FoundPath<'_>,
) -> Result<(), AllocError> {
    page.text.push_str(VALID)?;
    push_anchor(alloc, page, anchors, found.anchor)?;
    for octets in found.chain.as_slice() {
        push_certificate(alloc, page, octets)?;
        page.text.push('\n')?;
    }
    Ok(())
}

/// Adds the lines of a chain that is refused.
fn push_refused(
    alloc: Global,
    page: &mut Page,
    anchors: &[Anchor<'_>],
    refused: &RefusedPath<'_>,
) -> Result<(), AllocError> {
    push_nothing(page, REFUSED)?;
    push_anchor(alloc, page, anchors, refused.anchor)?;
    for (at, octets) in refused.chain.as_slice().iter().enumerate() {
        push_certificate(alloc, page, octets)?;
        push_reason(page, at, refused.error)?;
        page.text.push('\n')?;
    }
    Ok(())
}

/// Adds why the certificate at an index is refused, if it is the one.
fn push_reason(page: &mut Page, at: usize, error: PathError) -> Result<(), AllocError> {
    match error {
        PathError::Refused(index, step) if index == at => {
            page.text.push_str(", refused by RFC 5280 ")?;
            page.text.push_str(step.letter())?;
            page.text.push_str(": ")?;
            page.text.push_str(words_of_step(step))
        }
        PathError::Unread(index) if index == at => page.text.push_str(
            ", refused: an extension stands twice, or its value cannot be read",
        ),
        _ => Ok(()),
    }
}

/// Adds the line of the anchor at an index.
fn push_anchor(
    alloc: Global,
    page: &mut Page,
    anchors: &[Anchor<'_>],
    index: usize,
) -> Result<(), AllocError> {
    match anchors.get(index) {
        Some(anchor) => {
            push_named(alloc, page, "anchor: ", &anchor.name)?;
            page.text.push('\n')
        }
        None => Ok(()),
    }
}

/// Adds the subject of a certificate.
fn push_certificate(alloc: Global, page: &mut Page, octets: &[u8]) -> Result<(), AllocError> {
    match Certificate::from_der(alloc, octets) {
        Ok(certificate) => push_named(
            alloc,
            page,
            "certificate: ",
            certificate.tbs_certificate().subject(),
        ),
        // The octets were read before, so only memory can run out.
        Err(_) => Err(AllocError),
    }
}

/// Adds a name behind these words.
fn push_named(
    alloc: Global,
    page: &mut Page,
    words: &str,
    name: &Name<'_>,
) -> Result<(), AllocError> {
    page.text.push_str(words)?;
    push_places(&mut Printer::new(alloc, page, &[]), name, Behind::Mark)
}
