//! What is no DER: BER, whose kind its tags tell, and what is neither.

use crate::tests::certview::messages::ED25519;
use crate::tests::certview::{assert_contains, written};
use certview_text::{Fault, Kind, kind_of};
use std::test::Fail;

/// The first octets of messages in BER, each with an indefinite length.
const ROWS: [(&str, Kind); 6] = [
    ("308006092a864886f70d010702a0803080020101", Kind::Cms),
    ("3080020103308006092a864886f70d010701a0802480", Kind::Pkcs12),
    ("30800a0100a0803080", Kind::OcspResponse),
    ("30803080a003020102020105300506032b6570", Kind::Certificate),
    (
        "308002010102010202010302010402010502010602010702010802010902010a0000",
        Kind::RsaPrivateKey,
    ),
    ("3080020100040100a000", Kind::EcPrivateKey),
];

#[test]
fn tells_the_kind_of_ber(rt: HostRuntime) -> Result<(), Fail> {
    for (digits, kind) in ROWS {
        let octets = hex::decode(rt.alloc(), digits)?;
        assert_eq!(rt; kind_of(octets.as_slice()), kind);
    }
    Ok(())
}

/// The error is one of the message as a whole.
#[test]
fn says_that_ber_is_not_read(rt: HostRuntime) -> Result<(), Fail> {
    for (digits, _) in ROWS {
        let octets = hex::decode(rt.alloc(), digits)?;
        let (result, written) = written(rt.alloc(), octets.as_slice());
        assert!(rt; written.is_empty());
        let text = match result {
            Ok(_) => String::new(rt.alloc()),
            Err(fault) => format!(in rt.alloc(); "{fault}")?,
        };
        assert_eq!(rt;
            text.as_str(),
            "refused (16): an indefinite length: this is BER, which is not read, at position 2"
        );
    }
    Ok(())
}

/// The error names a field with an indefinite length.
#[test]
fn names_the_field_that_is_in_ber(rt: HostRuntime) -> Result<(), Fail> {
    let mut octets = hex::decode(rt.alloc(), ED25519)?;
    assert!(rt; octets.len() > 42);
    octets[42] = 0x80;
    let (result, _written) = written(rt.alloc(), octets.as_slice());
    let text = match result {
        Ok(_) => String::new(rt.alloc()),
        Err(fault) => format!(in rt.alloc(); "{fault}")?,
    };
    assert_contains(
        &rt,
        text.as_str(),
        "this is BER, which is not read, at position 43",
    );
    assert!(rt; text.ends_with(", in tbsCertificate.issuer"), "{text}");
    Ok(())
}

#[test]
fn tells_what_is_neither_der_nor_pem(rt: HostRuntime) -> Result<(), Fail> {
    let rows: [&[u8]; 9] = [
        b"\n",
        b"\xff\xfe0\x00",
        b"\xfe\xff\x000",
        b"MIIBOzCB7qADAgECAhRxOYFvdn1Z",
        b"ssh-rsa AAAAB3NzaC1yc2EAAAADAQABAAAA",
        b"<!DOCTYPE html>\n",
        b"----BEGIN CERTIFICATE----\nMA==\n----END CERTIFICATE----\n",
        b"\x00\x00\x00",
        b"\x31\x00",
    ];
    for octets in rows {
        let (result, written) = written(rt.alloc(), octets);
        assert_eq!(rt; result, Err(Fault::NoMessage));
        assert!(rt; written.is_empty());
    }
    let words = format!(in rt.alloc(); "{}", Fault::NoMessage)?;
    assert_eq!(rt; words.as_str(), "refused: it is neither DER nor PEM text");
    assert_eq!(rt; Fault::NoMessage.status(), 1);
    Ok(())
}
