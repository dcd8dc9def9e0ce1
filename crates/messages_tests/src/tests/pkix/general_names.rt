//! Names of any kind, and lists of them.

use crate::tests::{copied, numbered, same};
use der_asn1_types::{Encode, End, Explicit, Field, FromDer};
use der_extensions::extension::{GeneralName, SubjectAltName};
use der_pkix::name::Name;
use std::alloc::Global;
use std::process::Abort;
use std::test::Fail;

// Returns the index of an alternative, in their order.
fn kind_of(name: &GeneralName) -> u8 {
    match name {
        GeneralName::OtherName(_) => 0,
        GeneralName::Rfc822Name(_) => 1,
        GeneralName::DnsName(_) => 2,
        GeneralName::X400Address(_) => 3,
        GeneralName::DirectoryName(_) => 4,
        GeneralName::EdiPartyName(_) => 5,
        GeneralName::UniformResourceIdentifier(_) => 6,
        GeneralName::IpAddress(_) => 7,
        GeneralName::RegisteredId(_) => 8,
    }
}

// Returns the kinds of some names.
fn kinds_told(alloc: Global, octets: &[u8]) -> Result<Vec<u8>, u8> {
    let names = match SubjectAltName::from_der(alloc, octets) {
        Ok(names) => names,
        Err(e) => return Err(e.kind().number()),
    };
    let mut kinds = Vec::new(alloc);
    let mut left = names.items().iter(alloc);
    'names: while let Some(name) = left.next() {
        let Ok(name) = name else {
            return Err(0);
        };
        if kinds.push(kind_of(&name)).is_err() {
            return Err(1);
        }
    }
    Ok(kinds)
}

#[test]
fn alternative_names_have_kinds(rt: HostRuntime) -> Result<(), Fail> {
    let alloc = rt.alloc();
    let octets = hex::decode(
        alloc,
        "308192820e6261726c65792e6578616d706c6581136d696c6c406261726c65792e6578616d706c658704c0000201861768747470733a2f2f6261726c65792e6578616d706c652f88032a0304a025060a2b060104018237140203a0170c156d696c6c6572406261726c65792e6578616d706c65a420301e310b3009060355040613025345310f300d060355040a0c064261726c6579",
    )?;
    let found = kinds_told(alloc, octets.as_slice())?;
    same(&rt, found.as_slice(), [2, 1, 7, 6, 8, 0, 4].as_slice());
    let octets = hex::decode(alloc, "3004a300a500")?;
    let found = kinds_told(alloc, octets.as_slice())?;
    same(&rt, found.as_slice(), [3, 5].as_slice());
    Ok(())
}

/// Returns the octets of a registered identifier or of a directory name.
fn octets_of_name(alloc: Global, octets: &[u8]) -> Result<Vec<u8>, u8> {
    match GeneralName::from_der(alloc, octets) {
        Ok(GeneralName::RegisteredId(identifier)) => copied(alloc, identifier.as_bytes()),
        Ok(GeneralName::DirectoryName(directory)) => numbered(directory.fields.first.to_der(alloc)),
        Ok(_) => Err(0),
        Err(e) => Err(e.kind().number()),
    }
}

/// Returns a general name that is the directory name with these octets.
fn general_name_of(alloc: Global, octets: &[u8]) -> Result<Vec<u8>, u8> {
    match Name::from_der(alloc, octets) {
        Ok(name) => {
            let fields = Field {
                first: name,
                rest: End,
            };
            let general = GeneralName::DirectoryName(Explicit { fields });
            numbered(general.to_der(alloc))
        }
        Err(e) => Err(e.kind().number()),
    }
}

#[test]
fn a_name_is_made_general(rt: HostRuntime) -> Result<(), Fail> {
    let alloc = rt.alloc();
    // C=SE
    let name = hex::decode(alloc, "300d310b3009060355040613025345")?;
    let written = general_name_of(alloc, name.as_slice())?;
    let octets = hex::decode(alloc, "a40f300d310b3009060355040613025345")?;
    same(&rt, written.as_slice(), octets.as_slice());
    Ok(())
}

#[test]
fn names_have_their_kinds(rt: HostRuntime) -> Result<(), Fail> {
    let alloc = rt.alloc();
    let identifier = octets_of_name(alloc, &[0x88, 0x03, 0x2a, 0x03, 0x04])?;
    same(&rt, identifier.as_slice(), [0x2a, 0x03, 0x04].as_slice());
    let directory = octets_of_name(alloc, &[0xa4, 0x02, 0x30, 0x00])?;
    same(&rt, directory.as_slice(), [0x30, 0x00].as_slice());
    // x400Address, which is neither
    let address = octets_of_name(alloc, &[0xa3, 0x00]);
    same(&rt, address.err(), Some(0));
    Ok(())
}
