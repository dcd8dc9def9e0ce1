//! Names, and their parts.

use crate::tests::{copied, numbered, same};
use der_asn1_types::FromDer;
use der_pkix::name::{AttributeTypeAndValue, Name, RelativeDistinguishedName};
use std::alloc::Global;
use std::process::Abort;
use std::test::Fail;

/// The contents octets of an attribute's type and value.
type Told = (Vec<u8>, Vec<u8>);

fn attribute_told(alloc: Global, attribute: &AttributeTypeAndValue) -> Result<Told, u8> {
    let kind = copied(alloc, attribute.type_().as_bytes())?;
    let value = copied(alloc, attribute.value().value())?;
    Ok((kind, value))
}

// Returns the number of attributes of a part, and the first attribute.
fn part_told(alloc: Global, part: &RelativeDistinguishedName) -> Result<(usize, Told), u8> {
    let count = numbered(part.items().count(alloc))?;
    match part.items().get(alloc, 0) {
        Some(Ok(first)) => Ok((count, attribute_told(alloc, &first)?)),
        Some(Err(e)) => Err(e.kind().number()),
        None => Err(0),
    }
}

// Returns the number of parts of a name, and the second part.
fn name_told(alloc: Global, octets: &[u8]) -> Result<(usize, (usize, Told)), u8> {
    match Name::from_der(alloc, octets) {
        Ok(name) => {
            let count = numbered(name.items().count(alloc))?;
            match name.items().get(alloc, 1) {
                Some(Ok(second)) => Ok((count, part_told(alloc, &second)?)),
                Some(Err(e)) => Err(e.kind().number()),
                None => Err(0),
            }
        }
        Err(e) => Err(e.kind().number()),
    }
}

#[test]
fn names_have_parts(rt: HostRuntime) -> Result<(), Fail> {
    let alloc = rt.alloc();
    let octets = hex::decode(
        alloc,
        "303d310b3009060355040613025345311e300d060355040a0c0650756c6c6579300d060355040b0c064261726c6579310e300c06035504030c05677261696e",
    )?;
    let found = name_told(alloc, octets.as_slice());
    let kind = hex::decode(alloc, "55040a")?;
    let value = hex::decode(alloc, "50756c6c6579")?;
    same(&rt, found, Ok((3, (2, (kind, value)))));
    Ok(())
}
