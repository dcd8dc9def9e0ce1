//! Faults and the fields in which they are met: an octet of a message is another one.

use crate::tests::certview::messages::{CURVE_PRIVATE, ED25519, LIST};
use crate::tests::certview::written;
use certview_text::Fault;
use std::test::Fail;

#[test]
fn tells_times_before_1970(rt: HostRuntime) -> Result<(), Fail> {
    let early = "refused (13): a time before 1970, which is not read, at position ";
    let none = "refused (13): contents that are no value of UTCTime, at position ";
    let rows: [(&str, usize, &[u8], &str, &str); 7] = [
        (
            ED25519,
            62,
            b"500101000000Z",
            early,
            "75, in tbsCertificate.validity.notBefore",
        ),
        (
            ED25519,
            62,
            b"680229235959Z",
            early,
            "75, in tbsCertificate.validity.notBefore",
        ),
        (
            ED25519,
            62,
            b"690229235959Z",
            none,
            "75, in tbsCertificate.validity.notBefore",
        ),
        (
            ED25519,
            62,
            b"690101000060Z",
            none,
            "75, in tbsCertificate.validity.notBefore",
        ),
        (
            ED25519,
            62,
            b"701301000000Z",
            none,
            "75, in tbsCertificate.validity.notBefore",
        ),
        (
            ED25519,
            77,
            b"19691231235959Z",
            early,
            "92, in tbsCertificate.validity.notAfter",
        ),
        (
            LIST,
            72,
            b"691231235959Z",
            early,
            "85, in tbsCertList.revokedCertificates.revocationDate",
        ),
    ];
    for (message, place, others, front, end) in rows {
        let mut octets = hex::decode(rt.alloc(), message)?;
        let mut index = place;
        for octet in others {
            assert!(rt; index < octets.len());
            octets[index] = *octet;
            index = index.wrapping_add(1);
        }
        let (result, _written) = written(rt.alloc(), octets.as_slice());
        let text = match result {
            Ok(_) => String::new(rt.alloc()),
            Err(fault) => format!(in rt.alloc(); "{fault}")?,
        };
        assert!(rt; text.starts_with(front) && text.ends_with(end), "{text}");
    }
    Ok(())
}

#[test]
fn names_the_field_of_a_fault(rt: HostRuntime) -> Result<(), Fail> {
    let rows: [(&str, usize, u8, &str); 18] = [
        (ED25519, 0, 0x31, "it is neither DER nor PEM text"),
        (ED25519, 3, 0xff, "at position 4"),
        (
            ED25519,
            7,
            0xa5,
            "at position 9, in tbsCertificate.serialNumber",
        ),
        (
            ED25519,
            9,
            0x04,
            "at position 11, in tbsCertificate.version",
        ),
        (
            ED25519,
            64,
            0x39,
            "at position 75, in tbsCertificate.validity.notBefore",
        ),
        (
            ED25519,
            75,
            0x04,
            "at position 75, in tbsCertificate.validity.notAfter",
        ),
        (
            ED25519,
            113,
            0x04,
            "in tbsCertificate.subjectPublicKeyInfo.algorithm.algorithm",
        ),
        (
            ED25519,
            188,
            0x31,
            "at position 190, in tbsCertificate.extensions",
        ),
        (
            ED25519,
            243,
            0x04,
            "at position 245, in signatureAlgorithm.algorithm",
        ),
        (
            LIST,
            74,
            0x39,
            "in tbsCertList.revokedCertificates.revocationDate",
        ),
        (LIST, 48, 0x18, "in tbsCertList.nextUpdate"),
        (CURVE_PRIVATE, 41, 0x05, "in parameters"),
        (ED25519, 41, 0x31, "in tbsCertificate.issuer"),
        (ED25519, 43, 0x30, "in tbsCertificate.issuer"),
        (ED25519, 47, 0x04, "in tbsCertificate.issuer.type"),
        (ED25519, 98, 0x04, "in tbsCertificate.subject.type"),
        (
            LIST,
            70,
            0x04,
            "in tbsCertList.revokedCertificates.revocationDate",
        ),
        (
            LIST,
            89,
            0x04,
            "in tbsCertList.revokedCertificates.crlEntryExtensions.extnID",
        ),
    ];
    for (message, place, octet, words) in rows {
        let mut octets = hex::decode(rt.alloc(), message)?;
        assert!(rt; place < octets.len());
        octets[place] = octet;
        let (result, _written) = written(rt.alloc(), octets.as_slice());
        let text = match result {
            Ok(_) => String::new(rt.alloc()),
            Err(fault) => format!(in rt.alloc(); "{fault}")?,
        };
        assert!(rt; text.ends_with(words), "{text}");
    }
    Ok(())
}
