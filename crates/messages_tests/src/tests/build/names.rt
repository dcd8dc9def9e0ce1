//! Attributes with their texts, and names of them.

use super::wanted;
use crate::tests::{numbered, same_in};
use der_asn1_types::{Encode, FromDer};
use der_build::{TextAttribute, attribute, name};
use der_pkix::name::Name;
use std::alloc::Global;
use std::process::Abort;
use std::test::Fail;

// Returns the octets of an attribute whose type has these contents octets, in hex.
fn attribute_of(alloc: Global, type_: &str, text: &str) -> Result<Vec<u8>, u8> {
    let identifier = wanted(alloc, type_)?;
    let type_ = identifier.as_slice();
    match attribute(TextAttribute { type_, text }) {
        Ok(attribute) => numbered(attribute.to_der(alloc)),
        Err(e) => Err(e.kind().number()),
    }
}

#[test]
fn attributes_are_built(rt: HostRuntime) -> Result<(), Fail> {
    let alloc = rt.alloc();
    let rows = [
        // as OpenSSL wrote them
        ("550406", "SE", "3009060355040613025345"),
        ("550408", "Skåne", "300d06035504080c06536bc3a56e65"),
        ("550407", "Lund", "300b06035504070c044c756e64"),
        ("55040a", "Barley", "300d060355040a0c064261726c6579"),
        ("55040b", "Wheel", "300c060355040b0c05576865656c"),
        ("55040c", "Miller", "300d060355040c0c064d696c6c6572"),
        ("550403", "mill", "300b06035504030c046d696c6c"),
        ("550404", "Ek", "300906035504040c02456b"),
        ("55042a", "Ada", "300a060355042a0c03416461"),
        ("55042b", "AE", "3009060355042b0c024145"),
        ("55042c", "II", "3009060355042c0c024949"),
        ("550441", "corn", "300b06035504410c04636f726e"),
        ("550429", "Ada Ek", "300d06035504290c0641646120456b"),
        ("550405", "7-b", "300a06035504051303372d62"),
        ("55042e", "q1", "3009060355042e13027131"),
        (
            "0992268993f22c640119",
            "barley",
            "3014060a0992268993f22c64011916066261726c6579",
        ),
        (
            "2a864886f70d010901",
            "a@barley.example",
            "301d06092a864886f70d010901161061406261726c65792e6578616d706c65",
        ),
        // as many characters as there may be, and as few
        (
            "550403",
            "xxxxxxxxxxxxxxxxxxxxxxxxxxxxxxxxxxxxxxxxxxxxxxxxxxxxxxxxxxxxxxxx",
            "304706035504030c4078787878787878787878787878787878787878787878787878787878787878787878787878787878787878787878787878787878787878787878787878787878",
        ),
        (
            "550403",
            "åååååååååååååååååååååååååååååååååååååååååååååååååååååååååååååååå",
            "30818806035504030c8180c3a5c3a5c3a5c3a5c3a5c3a5c3a5c3a5c3a5c3a5c3a5c3a5c3a5c3a5c3a5c3a5c3a5c3a5c3a5c3a5c3a5c3a5c3a5c3a5c3a5c3a5c3a5c3a5c3a5c3a5c3a5c3a5c3a5c3a5c3a5c3a5c3a5c3a5c3a5c3a5c3a5c3a5c3a5c3a5c3a5c3a5c3a5c3a5c3a5c3a5c3a5c3a5c3a5c3a5c3a5c3a5c3a5c3a5c3a5c3a5c3a5c3a5c3a5c3a5",
        ),
        (
            "550407",
            "xxxxxxxxxxxxxxxxxxxxxxxxxxxxxxxxxxxxxxxxxxxxxxxxxxxxxxxxxxxxxxxxxxxxxxxxxxxxxxxxxxxxxxxxxxxxxxxxxxxxxxxxxxxxxxxxxxxxxxxxxxxxxxxx",
            "30818806035504070c81807878787878787878787878787878787878787878787878787878787878787878787878787878787878787878787878787878787878787878787878787878787878787878787878787878787878787878787878787878787878787878787878787878787878787878787878787878787878787878787878787878787878787878",
        ),
        ("55042e", "", "3007060355042e1300"),
        (
            "550405",
            "7777777777777777777777777777777777777777777777777777777777777777",
            "30470603550405134037373737373737373737373737373737373737373737373737373737373737373737373737373737373737373737373737373737373737373737373737373737",
        ),
        ("2a03", "x", "300706022a030c0178"),
    ];
    for (type_, text, octets) in rows {
        same_in(
            &rt,
            &text,
            attribute_of(alloc, type_, text),
            wanted(alloc, octets),
        );
    }
    Ok(())
}

#[test]
fn attributes_are_refused(rt: HostRuntime) -> Result<(), Fail> {
    let alloc = rt.alloc();
    let rows = [
        // no identifier, and one of 40 octets
        ("", "mill", 15),
        (
            "2a2a2a2a2a2a2a2a2a2a2a2a2a2a2a2a2a2a2a2a2a2a2a2a2a2a2a2a2a2a2a2a2a2a2a2a2a2a2a2a",
            "mill",
            7,
        ),
        // too few characters, and too many
        ("550403", "", 13),
        (
            "550403",
            "xxxxxxxxxxxxxxxxxxxxxxxxxxxxxxxxxxxxxxxxxxxxxxxxxxxxxxxxxxxxxxxxx",
            13,
        ),
        (
            "550407",
            "xxxxxxxxxxxxxxxxxxxxxxxxxxxxxxxxxxxxxxxxxxxxxxxxxxxxxxxxxxxxxxxxxxxxxxxxxxxxxxxxxxxxxxxxxxxxxxxxxxxxxxxxxxxxxxxxxxxxxxxxxxxxxxxxx",
            13,
        ),
        ("550406", "S", 13),
        ("550406", "SWE", 13),
        ("2a864886f70d010901", "", 13),
        // characters that the string does not have
        ("550406", "S@", 13),
        ("550405", "7_b", 13),
        ("55042e", "q*", 13),
        ("0992268993f22c640119", "bårley", 13),
        ("2a864886f70d010901", "å@barley.example", 13),
    ];
    for (type_, text, number) in rows {
        same_in(
            &rt,
            &(type_, text),
            attribute_of(alloc, type_, text),
            Err(number),
        );
    }
    Ok(())
}

// Returns the octets of the name that these octets are read as.
fn name_again(alloc: Global, octets: &[u8]) -> Result<Vec<u8>, u8> {
    match Name::from_der(alloc, octets) {
        Ok(name) => numbered(name.to_der(alloc)),
        Err(e) => Err(e.kind().number()),
    }
}

// Returns the octets of a name with a country and a commonName, read and written again.
fn name_of(alloc: Global, country: &str, common_name: &str) -> Result<Vec<u8>, u8> {
    let attributes = [
        TextAttribute {
            type_: &[0x55, 0x04, 0x06],
            text: country,
        },
        TextAttribute {
            type_: &[0x55, 0x04, 0x03],
            text: common_name,
        },
    ];
    let octets = numbered(name(alloc, attributes.as_slice()))?;
    name_again(alloc, octets.as_slice())
}

#[test]
fn names_are_built(rt: HostRuntime) -> Result<(), Fail> {
    let alloc = rt.alloc();
    let octets = "301c310b3009060355040613025345310d300b06035504030c046d696c6c";
    same_in(
        &rt,
        &"two parts",
        name_of(alloc, "SE", "mill"),
        wanted(alloc, octets),
    );
    same_in(
        &rt,
        &"the first is refused",
        name_of(alloc, "S", "mill"),
        Err(13),
    );
    same_in(
        &rt,
        &"the second is refused",
        name_of(alloc, "SE", ""),
        Err(13),
    );
    same_in(
        &rt,
        &"no parts",
        numbered(name(alloc, &[])),
        wanted(alloc, "3000"),
    );
    let found = name_again(alloc, &[0x30, 0x02, 0x05, 0x00]);
    same_in(&rt, &"no name", found, Err(4));
    Ok(())
}
