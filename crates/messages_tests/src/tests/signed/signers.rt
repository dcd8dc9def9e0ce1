//! Signers and their attributes (RFC 5652 sections 5.3 and 11), and the attributes that name their
//! certificates (RFC 5035).

use super::{content_of, first_value, read_and_copied};
use crate::tests::{again, copied, numbered, put, read_and_compared, same, same_in};
use der_asn1_types::{Encode, FromDer};
use der_cms::cms::{
    Countersignature, SignedAttributes, SignedData, SignerIdentifier, SignerInfo, SigningTime,
    UnsignedAttributes,
};
use der_cms::ess::{EssCertIdv2, SigningCertificate, SigningCertificateV2};
use der_pkix::certificate::Time;
use std::alloc::Global;
use std::cmp::Ordering;
use std::process::Abort;
use std::test::Fail;

/// A message with the attribute signingCertificateV2: `openssl cms -sign -in text -binary -nodetach
/// -signer barley.pem -inkey barley.key -cades -nosmimecap -nocerts -outform DER`.
const NAMED: &str =
    "3082017c06092a864886f70d010702a082016d30820169020101310d300b0609608648016503040201301406092a864886f70d010701a0070405666c6f75723182013d308201390201013014300f310d300b06035504030c046d696c6c020102300b0609608648016503040201a081bc301806092a864886f70d010903310b06092a864886f70d010701301c06092a864886f70d010905310f170d3236313132373136303430385a302f06092a864886f70d01090431220420f55f97cfa0dd5f18c1ac07d2c361b198f19fd8522032faae0451a1500f1c5f503051060b2a864886f70d010910022f31423040303e303c0420e75b6b3a9cbb31df8fc26447bda6347297db376129ce02b33ea0d9252f25585e30183013a411300f310d300b06035504030c046d696c6c020102300a06082a8648ce3d0403020446304402203cc48bd74c938718242974c6ab4e82909523bd1e302b0900d3ce8282052584e402206826c27e1aa3b39b19d2380fc7f99005ff9a5afa7333e61995097d537a61e8b5";

/// A signer identified by its key, with no attributes: `openssl cms -sign -in text -binary
/// -nodetach -signer oats.pem -inkey oats.key -keyid -noattr -nocerts -outform DER`.
const BY_KEY: &str =
    "3081b706092a864886f70d010702a081a93081a6020103310d300b0609608648016503040201301406092a864886f70d010701a0070405666c6f7572317c307a02010380140813afd67116762e86f934861382ed3b8604de7b300b0609608648016503040201300a06082a8648ce3d040302044630440220020e272837726c0768056ada49cd027732c72c57fb8807c29bbeb36dc7b5a35f0220757e2df5bf3105e62875acf13a9ceca531b9b670b117a61caf8c0b450ff1cc26";

fn signer_again(alloc: Global, octets: &[u8]) -> Result<Vec<u8>, u8> {
    again::<SignerInfo>(alloc, octets)
}

fn countersignature_again(alloc: Global, octets: &[u8]) -> Result<Vec<u8>, u8> {
    again::<Countersignature>(alloc, octets)
}

fn attributes_again(alloc: Global, octets: &[u8]) -> Result<Vec<u8>, u8> {
    again::<SignedAttributes>(alloc, octets)
}

fn unsigned_again(alloc: Global, octets: &[u8]) -> Result<Vec<u8>, u8> {
    again::<UnsignedAttributes>(alloc, octets)
}

fn certificate_again(alloc: Global, octets: &[u8]) -> Result<Vec<u8>, u8> {
    again::<SigningCertificate>(alloc, octets)
}

fn certificate_v2_again(alloc: Global, octets: &[u8]) -> Result<Vec<u8>, u8> {
    again::<SigningCertificateV2>(alloc, octets)
}

fn signers_compared(alloc: Global, first: &[u8], second: &[u8]) -> Result<(Ordering, bool), u8> {
    read_and_compared::<SignerInfo>(alloc, first, second)
}

fn signer_copied(alloc: Global, octets: &[u8]) -> Result<bool, u8> {
    read_and_copied::<SignerInfo>(alloc, octets)
}

fn certificate_v2_copied(alloc: Global, octets: &[u8]) -> Result<bool, u8> {
    read_and_copied::<SigningCertificateV2>(alloc, octets)
}

// Returns the encoding of the first signer of the message.
fn signer_of(alloc: Global, octets: &[u8]) -> Result<Vec<u8>, u8> {
    let content = content_of(alloc, octets)?;
    match SignedData::from_der(alloc, content.as_slice()) {
        Ok(signed) => match signed.signer_infos().get(alloc, 0) {
            Some(Ok(signer)) => numbered(signer.to_der(alloc)),
            Some(Err(e)) => Err(e.kind().number()),
            None => Err(0),
        },
        Err(e) => Err(e.kind().number()),
    }
}

// Returns the encoding of a signer's attributes as a SET, which is the form that is signed.
fn attributes_of(alloc: Global, octets: &[u8]) -> Result<Vec<u8>, u8> {
    match SignerInfo::from_der(alloc, octets) {
        Ok(signer) => match signer.signed_attrs() {
            Some(attributes) => numbered(attributes.to_der(alloc)),
            None => Err(0),
        },
        Err(e) => Err(e.kind().number()),
    }
}

// Returns the encoding of the first value of a signer's first unsigned attribute.
fn countersignature_of(alloc: Global, octets: &[u8]) -> Result<Vec<u8>, u8> {
    match SignerInfo::from_der(alloc, octets) {
        Ok(signer) => {
            let Some(attributes) = signer.unsigned_attrs() else {
                return Err(0);
            };
            match attributes.items().get(alloc, 0) {
                Some(Ok(attribute)) => first_value(alloc, &attribute),
                Some(Err(e)) => Err(e.kind().number()),
                None => Err(0),
            }
        }
        Err(e) => Err(e.kind().number()),
    }
}

// Returns the encoding of the first value of the attribute at an index.
fn value_of(alloc: Global, octets: &[u8], place: usize) -> Result<Vec<u8>, u8> {
    match SignedAttributes::from_der(alloc, octets) {
        Ok(attributes) => match attributes.items().get(alloc, place) {
            Some(Ok(attribute)) => first_value(alloc, &attribute),
            Some(Err(e)) => Err(e.kind().number()),
            None => Err(0),
        },
        Err(e) => Err(e.kind().number()),
    }
}

// Returns the version, the octets of the certificate's serial number or of the key's identifier,
// the number of signed attributes, whether there are unsigned ones, and the number of octets of
// the signature.
fn signer_told(
    alloc: Global,
    octets: &[u8],
) -> Result<(u8, Vec<u8>, Option<usize>, bool, usize), u8> {
    match SignerInfo::from_der(alloc, octets) {
        Ok(signer) => {
            let name = match signer.sid() {
                SignerIdentifier::IssuerAndSerialNumber(name) => {
                    copied(alloc, name.serial_number().as_bytes())?
                }
                SignerIdentifier::SubjectKeyIdentifier(key) => {
                    copied(alloc, key.value.as_bytes())?
                }
            };
            let attributes = match signer.signed_attrs() {
                Some(attributes) => Some(numbered(attributes.items().count(alloc))?),
                None => None,
            };
            Ok((
                signer.version(),
                name,
                attributes,
                signer.unsigned_attrs().is_some(),
                signer.signature().as_bytes().len(),
            ))
        }
        Err(e) => Err(e.kind().number()),
    }
}

// Returns the year of the signing time.
fn year_of(alloc: Global, octets: &[u8]) -> Result<u16, u8> {
    match SigningTime::from_der(alloc, octets) {
        Ok(Time::UtcTime(time)) => Ok(time.to_date_time().year()),
        Ok(Time::GeneralTime(time)) => Ok(time.to_date_time().year()),
        Err(e) => Err(e.kind().number()),
    }
}

/// Whether the name of a certificate has an algorithm, the number of octets of its hash, and the
/// octets of its serial number.
type Told = (bool, usize, Vec<u8>);

fn named_of(alloc: Global, named: &EssCertIdv2) -> Result<Told, u8> {
    let Some(name) = named.issuer_serial() else {
        return Err(0);
    };
    let number = copied(alloc, name.serial_number().as_bytes())?;
    Ok((
        named.hash_algorithm().is_some(),
        named.cert_hash().as_bytes().len(),
        number,
    ))
}

// Returns the number of named certificates, and the name of the first one.
fn named_told(alloc: Global, octets: &[u8]) -> Result<(usize, Told), u8> {
    match SigningCertificateV2::from_der(alloc, octets) {
        Ok(named) => {
            let count = numbered(named.certs().count(alloc))?;
            match named.certs().get(alloc, 0) {
                Some(Ok(first)) => Ok((count, named_of(alloc, &first)?)),
                Some(Err(e)) => Err(e.kind().number()),
                None => Err(0),
            }
        }
        Err(e) => Err(e.kind().number()),
    }
}

#[test]
fn signers_are_written_back(rt: HostRuntime) -> Result<(), Fail> {
    let alloc = rt.alloc();
    for digits in [NAMED, BY_KEY] {
        let octets = hex::decode(alloc, digits)?;
        let signer = signer_of(alloc, octets.as_slice())?;
        let written = signer_again(alloc, signer.as_slice())?;
        same(&rt, written.as_slice(), signer.as_slice());
        for i in 0..signer.len() {
            let number = signer_again(alloc, &signer[..i]).err();
            same_in(&rt, &i, number, Some(2));
        }
    }
    Ok(())
}

#[test]
fn signers_have_fields(rt: HostRuntime) -> Result<(), Fail> {
    let alloc = rt.alloc();
    let octets = hex::decode(alloc, NAMED)?;
    let signer = signer_of(alloc, octets.as_slice())?;
    let number = hex::decode(alloc, "02")?;
    let found = signer_told(alloc, signer.as_slice());
    same(&rt, found, Ok((1, number, Some(4), false, 70)));
    let octets = hex::decode(alloc, BY_KEY)?;
    let signer = signer_of(alloc, octets.as_slice())?;
    let key = hex::decode(alloc, "0813afd67116762e86f934861382ed3b8604de7b")?;
    let found = signer_told(alloc, signer.as_slice());
    same(&rt, found, Ok((3, key, None, false, 70)));
    Ok(())
}

#[test]
fn countersignatures_are_read(rt: HostRuntime) -> Result<(), Fail> {
    let alloc = rt.alloc();
    // the signer that its key names, with itself as the value of an attribute that is not signed
    let octets = hex::decode(
        alloc,
        "3082010902010380140813afd67116762e86f934861382ed3b8604de7b300b0609608648016503040201300a06082a8648ce3d040302044630440220020e272837726c0768056ada49cd027732c72c57fb8807c29bbeb36dc7b5a35f0220757e2df5bf3105e62875acf13a9ceca531b9b670b117a61caf8c0b450ff1cc26a1818c30818906092a864886f70d010906317c307a02010380140813afd67116762e86f934861382ed3b8604de7b300b0609608648016503040201300a06082a8648ce3d040302044630440220020e272837726c0768056ada49cd027732c72c57fb8807c29bbeb36dc7b5a35f0220757e2df5bf3105e62875acf13a9ceca531b9b670b117a61caf8c0b450ff1cc26",
    )?;
    let written = signer_again(alloc, octets.as_slice())?;
    same(&rt, written.as_slice(), octets.as_slice());
    let key = hex::decode(alloc, "0813afd67116762e86f934861382ed3b8604de7b")?;
    let found = signer_told(alloc, octets.as_slice());
    same(&rt, found, Ok((3, key, None, true, 70)));
    let value = countersignature_of(alloc, octets.as_slice())?;
    let written = countersignature_again(alloc, value.as_slice())?;
    same(&rt, written.as_slice(), value.as_slice());
    Ok(())
}

#[test]
fn attributes_are_a_set(rt: HostRuntime) -> Result<(), Fail> {
    let alloc = rt.alloc();
    let octets = hex::decode(alloc, NAMED)?;
    let signer = signer_of(alloc, octets.as_slice())?;
    let attributes = attributes_of(alloc, signer.as_slice())?;
    let written = attributes_again(alloc, attributes.as_slice())?;
    same(&rt, written.as_slice(), attributes.as_slice());
    // the type of the content, the time, and the digest; the fourth names the certificate
    let value = value_of(alloc, attributes.as_slice(), 0)?;
    let kind = hex::decode(alloc, "06092a864886f70d010701")?;
    same(&rt, value.as_slice(), kind.as_slice());
    let value = value_of(alloc, attributes.as_slice(), 1)?;
    same(&rt, year_of(alloc, value.as_slice()), Ok(2026));
    let value = value_of(alloc, attributes.as_slice(), 2)?;
    let digest = hex::decode(
        alloc,
        "0420f55f97cfa0dd5f18c1ac07d2c361b198f19fd8522032faae0451a1500f1c5f50",
    )?;
    same(&rt, value.as_slice(), digest.as_slice());
    Ok(())
}

#[test]
fn certificates_of_signers_are_named(rt: HostRuntime) -> Result<(), Fail> {
    let alloc = rt.alloc();
    let octets = hex::decode(alloc, NAMED)?;
    let signer = signer_of(alloc, octets.as_slice())?;
    let attributes = attributes_of(alloc, signer.as_slice())?;
    let value = value_of(alloc, attributes.as_slice(), 3)?;
    let written = certificate_v2_again(alloc, value.as_slice())?;
    same(&rt, written.as_slice(), value.as_slice());
    let number = hex::decode(alloc, "02")?;
    let found = named_told(alloc, value.as_slice());
    same(&rt, found, Ok((1, (false, 32, number))));
    same(
        &rt,
        certificate_v2_copied(alloc, value.as_slice()),
        Ok(true),
    );
    Ok(())
}

#[test]
fn names_of_certificates_are_written_back(rt: HostRuntime) -> Result<(), Fail> {
    let alloc = rt.alloc();
    let rows = [
        // no certificate, one by its hash, and one with a policy
        "30023000",
        "30083006300404020102",
        "301130063004040201023007300506032a0305",
    ];
    for digits in rows {
        let octets = hex::decode(alloc, digits)?;
        let written = certificate_again(alloc, octets.as_slice())?;
        same(&rt, written.as_slice(), octets.as_slice());
    }
    // the algorithm SHA-256, which is the default of RFC 5035
    let octets = hex::decode(alloc, "301530133011300b06096086480165030402010402abcd")?;
    let written = certificate_v2_again(alloc, octets.as_slice())?;
    same(&rt, written.as_slice(), octets.as_slice());
    Ok(())
}

#[test]
fn names_of_certificates_have_their_fields_in_order(rt: HostRuntime) -> Result<(), Fail> {
    let alloc = rt.alloc();
    let rows = [
        // no hash, policies before certificates, an issuer with no name, and a value after the policies
        ("300430023000", 2),
        ("30093007300506032a0305", 4),
        ("300f300d300b0402010230053000020105", 13),
        ("300730003000020105", 3),
    ];
    for (digits, number) in rows {
        let octets = hex::decode(alloc, digits)?;
        let answer = certificate_again(alloc, octets.as_slice());
        same_in(&rt, &digits, answer.err(), Some(number));
    }
    Ok(())
}

#[test]
fn a_changed_octet_of_a_signer_is_refused(rt: HostRuntime) -> Result<(), Fail> {
    let alloc = rt.alloc();
    let rows = [
        // a SET, a name of no kind, and a number with no octets
        (NAMED, 0, 0x31, 4),
        (NAMED, 7, 0xa1, 4),
        (NAMED, 27, 0x00, 8),
        // attributes with another tag, and with a primitive one
        (NAMED, 42, 0xa1, 4),
        (NAMED, 42, 0x80, 4),
        // an attribute that is no SEQUENCE, and values that are no SET
        (NAMED, 45, 0x31, 4),
        (NAMED, 58, 0x30, 4),
        // a signature that is a BIT STRING
        (NAMED, 245, 0x03, 4),
        // a key's name with a constructed tag
        (BY_KEY, 5, 0xa0, 4),
    ];
    for (digits, place, octet, number) in rows {
        let octets = hex::decode(alloc, digits)?;
        let mut signer = signer_of(alloc, octets.as_slice())?;
        put(&rt, &mut signer, place, octet);
        let answer = signer_again(alloc, signer.as_slice());
        same_in(&rt, &(place, octet), answer.err(), Some(number));
    }
    Ok(())
}

#[test]
fn attributes_that_are_signed_stand_in_order(rt: HostRuntime) -> Result<(), Fail> {
    let alloc = rt.alloc();
    let rows = [
        // none, one that is a number, and two that are exchanged
        ("3100", 13),
        ("3103020105", 4),
        ("3114300906032a030431023000300706032a03033100", 11),
    ];
    for (digits, number) in rows {
        let octets = hex::decode(alloc, digits)?;
        let answer = attributes_again(alloc, octets.as_slice());
        same_in(&rt, &digits, answer.err(), Some(number));
    }
    let octets = hex::decode(alloc, "3114300706032a03033100300906032a030431023000")?;
    let written = attributes_again(alloc, octets.as_slice())?;
    same(&rt, written.as_slice(), octets.as_slice());
    Ok(())
}

#[test]
fn attributes_that_are_not_signed_stay_in_their_order(rt: HostRuntime) -> Result<(), Fail> {
    let alloc = rt.alloc();
    // two that are exchanged, and in order
    for digits in [
        "3114300906032a030431023000300706032a03033100",
        "3114300706032a03033100300906032a030431023000",
    ] {
        let octets = hex::decode(alloc, digits)?;
        let written = unsigned_again(alloc, octets.as_slice())?;
        same_in(&rt, &digits, written.as_slice(), octets.as_slice());
    }
    // none, and one that is a number
    for (digits, number) in [("3100", 13), ("3103020105", 4)] {
        let octets = hex::decode(alloc, digits)?;
        let answer = unsigned_again(alloc, octets.as_slice());
        same_in(&rt, &digits, answer.err(), Some(number));
    }
    Ok(())
}

#[test]
fn signers_are_in_the_order_of_their_encodings(rt: HostRuntime) -> Result<(), Fail> {
    let alloc = rt.alloc();
    let named = hex::decode(alloc, NAMED)?;
    let named = signer_of(alloc, named.as_slice())?;
    let by_key = hex::decode(alloc, BY_KEY)?;
    let by_key = signer_of(alloc, by_key.as_slice())?;
    let found = signers_compared(alloc, by_key.as_slice(), named.as_slice());
    same(&rt, found, Ok((Ordering::Less, false)));
    let found = signers_compared(alloc, named.as_slice(), named.as_slice());
    same(&rt, found, Ok((Ordering::Equal, true)));
    same(&rt, signer_copied(alloc, named.as_slice()), Ok(true));
    Ok(())
}
