//! Names that match, and others (RFC 5280 section 7.1).

use crate::tests::same_in;
use der_asn1_types::FromDer;
use der_pkix::name::Name;
use der_verify::names_match;
use std::alloc::Global;
use std::process::Abort;
use std::test::Fail;

// Returns whether the names of two encodings match.
fn matching_told<'a>(alloc: Global, first: &'a [u8], second: &'a [u8]) -> Result<bool, u8> {
    match (Name::from_der(alloc, first), Name::from_der(alloc, second)) {
        (Ok(first), Ok(second)) => Ok(names_match(alloc, &first, &second)),
        (Err(e), _) => Err(e.kind().number()),
        (Ok(_), Err(e)) => Err(e.kind().number()),
    }
}

#[test]
fn names_are_compared(rt: HostRuntime) -> Result<(), Fail> {
    let alloc = rt.alloc();
    let rows = [
        // the same but for case and the kind of string
        (
            "300f310d300b06035504030c046d696c6c",
            "300f310d300b060355040313044d494c4c",
            true,
        ),
        (
            "300f310d300b060355040313044d696c6c",
            "300f310d300b060355040313046d494c4c",
            true,
        ),
        // spaces before, after, and between
        (
            "30193117301506035504030c0e20206d696c6c2020776865656c20",
            "30153113301106035504030c0a4d696c6c20776865656c",
            true,
        ),
        (
            "30153113301106035504030c0a6d696c6c20776865656c",
            "30143112301006035504030c096d696c6c776865656c",
            false,
        ),
        (
            "300e310c300a06035504030c03202020",
            "300b3109300706035504030c00",
            true,
        ),
        (
            "300f310d300b06035504030c046d696c6c",
            "3010310e300c06035504030c056d696c6c73",
            false,
        ),
        // octets beside letters: @ and `, [ and {
        (
            "300c310a300806035504030c0140",
            "300c310a300806035504030c0160",
            false,
        ),
        (
            "300c310a300806035504030c015b",
            "300c310a300806035504030c017b",
            false,
        ),
        (
            "300d310b300906035504030c02617a",
            "300d310b300906035504030c02415a",
            true,
        ),
        (
            "300d310b300906035504030c02617e",
            "300d310b300906035504030c02417e",
            true,
        ),
        // control characters, characters beyond ASCII, and other kinds of strings: exactly
        (
            "300e310c300a06035504030c03610962",
            "300e310c300a06035504030c03410962",
            false,
        ),
        (
            "300d310b300906035504030c02617f",
            "300d310b300906035504030c02417f",
            false,
        ),
        (
            "300d310b300906035504030c02617f",
            "300d310b300906035504030c02617f",
            true,
        ),
        (
            "300d310b300906035504030c02c389",
            "300d310b300906035504030c02c3a9",
            false,
        ),
        (
            "300d310b300906035504030c02c3a9",
            "300d310b300906035504030c02c3a9",
            true,
        ),
        (
            "30123110300e06035504030c07c389206d696c6c",
            "30133111300f06035504030c08c38920206d696c6c",
            false,
        ),
        (
            "300f310d300b060355040314046d696c6c",
            "300f310d300b060355040314044d494c4c",
            false,
        ),
        (
            "300f310d300b060355040314046d696c6c",
            "300f310d300b060355040314046d696c6c",
            true,
        ),
        (
            "300f310d300b060355040316046d696c6c",
            "300f310d300b06035504030c046d696c6c",
            false,
        ),
        // another type, another number of parts, and another order of them
        (
            "300f310d300b06035504030c046d696c6c",
            "300f310d300b060355040a0c046d696c6c",
            false,
        ),
        (
            "301d310d300b060355040a0c046d696c6c310c300a06035504030c03727965",
            "301d310d300b060355040a13044d494c4c310c300a06035504031303525945",
            true,
        ),
        (
            "301d310d300b060355040a0c046d696c6c310c300a06035504030c03727965",
            "301d310c300a06035504030c03727965310d300b060355040a0c046d696c6c",
            false,
        ),
        (
            "301d310d300b060355040a0c046d696c6c310c300a06035504030c03727965",
            "300f310d300b060355040a0c046d696c6c",
            false,
        ),
        ("3000", "3000", true),
        ("3000", "300f310d300b06035504030c046d696c6c", false),
        // attributes of one part in the same order, and in another one, which spaces make longer; one that
        // stands twice, and one more
        (
            "301b3119300a060355040a0c03727965300b06035504030c046d696c6c",
            "301b3119300a060355040a1303527965300b060355040313046d696c6c",
            true,
        ),
        (
            "301931173008060355040a0c0161300b06035504030c046d696c6c",
            "3020311e300b060355040313044d494c4c300f060355040a13082020204120202020",
            true,
        ),
        (
            "301631143008060355040313016130080603550403130162",
            "30163114300806035504030c016130080603550403130141",
            false,
        ),
        (
            "30163114300806035504030c016130080603550403130141",
            "301631143008060355040313016130080603550403130162",
            false,
        ),
        (
            "301b3119300a060355040a0c03727965300b06035504030c046d696c6c",
            "300f310d300b06035504030c046d696c6c",
            false,
        ),
    ];
    for (first, second, wanted) in rows {
        let octets = hex::decode(alloc, first)?;
        let others = hex::decode(alloc, second)?;
        let found = matching_told(alloc, octets.as_slice(), others.as_slice());
        same_in(&rt, &(first, second), found, Ok(wanted));
    }
    Ok(())
}
