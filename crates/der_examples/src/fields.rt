//! A SEQUENCE read by hand: an OBJECT IDENTIFIER, an OCTET STRING that may be absent, and
//! `[0] IMPLICIT INTEGER` that may be absent.
//!
//! This needs no contract and no proof, but states less than a list of fields, which states the
//! whole meaning of a SEQUENCE.

use der_asn1_types::asn1::{ContextSpecific, ObjectIdentifier, OctetStringRef};
use der_asn1_types::{Decode, Error, Header, Reader, SliceReader, Tag, TagNumber};
use std::alloc::Global;

/// The fields that were read.
#[derive(Drop)]
pub struct PolicyFields<'a> {
    /// The policy.
    pub identifier: ObjectIdentifier<39>,
    /// Its qualifier.
    pub qualifier: Option<OctetStringRef<'a>>,
    /// Its version.
    pub version: Option<ContextSpecific<u8>>,
}

/// Reads a policy from all of the octets.
///
/// # Errors
/// The first error, in reading order.
pub fn read_policy_fields<'a>(alloc: Global, octets: &'a [u8]) -> Result<PolicyFields<'a>, Error> {
    let mut reader = match SliceReader::new(octets) {
        Ok(reader) => reader,
        Err(e) => return Err(e),
    };
    let header = Header::decode(&mut reader)?;
    header.tag.assert_eq(Tag::Sequence)?;
    let end = reader.nest(header.length)?;
    // For a type that borrows, or that keeps a fact of its own, `?` is written as a `match`.
    let identifier = match ObjectIdentifier::<39>::decode(alloc, &mut reader) {
        Ok(identifier) => identifier,
        Err(e) => return Err(e),
    };
    let qualifier = match Option::<OctetStringRef>::decode(alloc, &mut reader) {
        Ok(qualifier) => qualifier,
        Err(e) => return Err(e),
    };
    let version = ContextSpecific::<u8>::decode_implicit(alloc, &mut reader, TagNumber(0))?;
    reader.unnest(end)?;
    reader.finish()?;
    Ok(PolicyFields {
        identifier,
        qualifier,
        version,
    })
}
