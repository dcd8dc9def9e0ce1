//! Names from the types and texts of their attributes (RFC 5280 section 4.1.2.4).

ghost use Rattle.std.specs.Prelude.{◌≡◌, IfOk, IfErr};
ghost use Rattle.der_build.specs.Names.{name_octets, part_octets, RefusesName, RefusesPart};

use crate::attributes::{TextAttribute, attribute};
use der_elem::{Encode, Form};
use der_opaque::Any;
use der_tlv::{Error, ErrorKind, Tag};
use std::alloc::Global;

/// Returns the encoding of a name of these attributes, one in each of its parts, in this order.
///
/// commonName `mill` is encoded as 30 0F 31 0D 30 0B 06 03 55 04 03 0C 04 6D 69 6C 6C.
///
/// # Errors
/// The errors of `attribute` for one of the attributes; `ErrorKind::Overflow` (9) if the name has
/// more than 4294967295 octets; `ErrorKind::Memory` (1) if memory runs out.
pub fn name<'a>(alloc: Global, attributes: &[TextAttribute<'a>]) -> Result<Vec<u8>, Error>
    ensures octets { IfOk result (λ octets. octets.items ≡ name_octets attributes.now) }
    ensures refused { IfErr result (λ e. RefusesName attributes.now e.kind) }
{
    let mut parts = Vec::new(alloc);
    let mut left = attributes;
    'each: while let [first, others @ ..] = left {
        let part = match part(alloc, *first) {
            Ok(part) => part,
            Err(e) => return Err(e),
        };
        match parts.push(part) {
            Ok(()) => left = others,
            Err(_) => return Err(Error::from_kind(ErrorKind::Memory)),
        }
    }
    parts.to_der(alloc)
}

/// Makes a part of a name from one attribute.
fn part<'a>(alloc: Global, only: TextAttribute<'a>) -> Result<Any, Error>
    ensures octets { IfOk result (λ part. ⟦<Any as Form>⟧.encoding part ≡ part_octets only.entry) }
    ensures refused { IfErr result (λ e. RefusesPart only.entry e.kind) }
{
    match attribute(only) {
        Ok(attribute) => Any::new(Tag::Set, attribute.to_der(alloc)?),
        Err(e) => Err(e),
    }
}
