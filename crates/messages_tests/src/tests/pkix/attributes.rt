//! The attributes of a subject.

use crate::tests::{copied, numbered, same};
use der_asn1_types::FromDer;
use der_extensions::extension::SubjectDirectoryAttributes;
use der_pkix::name::Attribute;
use std::alloc::Global;
use std::process::Abort;
use std::test::Fail;

// Returns the contents octets of the attribute's type, and the number of its values.
fn attribute_told(alloc: Global, attribute: &Attribute) -> Result<(Vec<u8>, usize), u8> {
    let kind = copied(alloc, attribute.type_().as_bytes())?;
    let count = numbered(attribute.values().count(alloc))?;
    Ok((kind, count))
}

// Returns the number of attributes, and the type and the number of values of the last one.
fn attributes_told(alloc: Global, octets: &[u8]) -> Result<(usize, (Vec<u8>, usize)), u8> {
    match SubjectDirectoryAttributes::from_der(alloc, octets) {
        Ok(attributes) => {
            let count = numbered(attributes.items().count(alloc))?;
            match attributes.items().get(alloc, count.saturating_sub(1)) {
                Some(Ok(last)) => Ok((count, attribute_told(alloc, &last)?)),
                Some(Err(e)) => Err(e.kind().number()),
                None => Err(0),
            }
        }
        Err(e) => Err(e.kind().number()),
    }
}

#[test]
fn attributes_have_values(rt: HostRuntime) -> Result<(), Fail> {
    let alloc = rt.alloc();
    let octets = hex::decode(
        alloc,
        "3035301d06082b060105050709013111180f31393830313132333132303030305a301406082b0601050507090431081302444513025345",
    )?;
    let found = attributes_told(alloc, octets.as_slice());
    let kind = hex::decode(alloc, "2b06010505070904")?;
    same(&rt, found, Ok((2, (kind, 2))));
    Ok(())
}
