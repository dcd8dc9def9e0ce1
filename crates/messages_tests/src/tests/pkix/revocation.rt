//! Lists of revoked certificates that OpenSSL wrote, and their entries.

use crate::tests::{copied, numbered, same};
use der_asn1_types::FromDer;
use der_pkix::crl::{CertificateList, RevokedCertificate};
use std::alloc::Global;
use std::process::Abort;
use std::test::Fail;

/// A list of two certificates, one of them with a reason. The list has an identifier of the
/// issuer's key and a number.
const TWO: &str =
    "308201153081c8020101300506032b6570302d310b3009060355040613025345310f300d060355040a0c064261726c6579310d300b06035504030c046d696c6c170d3236313132333038313030375a170d3236313232333038313030375a303e302402050123430235170d3236313132333038313030375a300c300a0603551d1504030a0101301602050123430324170d3236313132333038313030375aa02f302d301f0603551d230418301680140894da7aed9f78720d852c7a00aae7c41f546dd2300a0603551d140403020102300506032b657003410092d523e2ddae2f4192c776218fb80de317024bec09ce02fdb441bb106fd0f75dcd21d113fa1ef9cecf252961eb55d525ac5f1f5cbf4dc57367db61ede1331802";

/// Three entries with each extension of an entry except the issuer, and each extension of a list
/// except the freshest.
const ALL_EXTENSIONS: &str =
    "308201b630820168020101300506032b6570302d310b3009060355040613025345310f300d060355040a0c064261726c6579310d300b06035504030c046d696c6c170d3236313132373132353733385a170d3236313232373132353733385a3081923032020105170d3236313132333038313030375a301e300a0603551d1504030a010630100603551d17040906072a8648ce380202303a020106170d3236313132333038313030375a3026300a0603551d1504030a010130180603551d180411180f32303236313132323038303030305a3020020107170d3236313132333038313030375a300c300a0603551d1504030a0104a07a3078301f0603551d230418301680141a927ec59003518bfefddcfc6012429841c4074c300d0603551d1b0101ff0403020105303a0603551d1c0101ff0430302ea022a020861e687474703a2f2f6261726c65792e6578616d706c652f6d696c6c2e63726c8101ff830205608401ff300a0603551d14040302011f300506032b6570034100bce75a41c4015a86174d8f2add8b400f62eb5b9bf4abac8de073ea7a3bf7c3981039d7b45f8d40bc505ac73acf34310db3b485d8267b2cd6e249f0cc25fe8a0c";

// Returns the version, the numbers of entries and of extensions, whether a next update is
// present, and the number of bits of the signature.
fn list_told(
    alloc: Global,
    octets: &[u8],
) -> Result<(Option<u8>, Option<usize>, usize, bool, usize), u8> {
    match CertificateList::from_der(alloc, octets) {
        Ok(list) => {
            let signed = list.tbs_cert_list();
            let entries = match signed.revoked_certificates() {
                Some(entries) => Some(numbered(entries.count(alloc))?),
                None => None,
            };
            let extensions = match signed.crl_extensions() {
                Some(extensions) => numbered(extensions.items().count(alloc))?,
                None => 0,
            };
            Ok((
                signed.version(),
                entries,
                extensions,
                signed.next_update().is_some(),
                list.signature_value().bit_len(),
            ))
        }
        Err(e) => Err(e.kind().number()),
    }
}

// Returns the octets of the serial number, and the number of extensions.
fn entry_told(alloc: Global, octets: &[u8]) -> Result<(Vec<u8>, usize), u8> {
    match RevokedCertificate::from_der(alloc, octets) {
        Ok(entry) => {
            let extensions = match entry.crl_entry_extensions() {
                Some(extensions) => numbered(extensions.items().count(alloc))?,
                None => 0,
            };
            let number = copied(alloc, entry.user_certificate().as_bytes())?;
            Ok((number, extensions))
        }
        Err(e) => Err(e.kind().number()),
    }
}

#[test]
fn lists_have_fields(rt: HostRuntime) -> Result<(), Fail> {
    let alloc = rt.alloc();
    let octets = hex::decode(alloc, TWO)?;
    let found = list_told(alloc, octets.as_slice());
    same(&rt, found, Ok((Some(1), Some(2), 2, true, 512)));
    let octets = hex::decode(alloc, ALL_EXTENSIONS)?;
    let found = list_told(alloc, octets.as_slice());
    same(&rt, found, Ok((Some(1), Some(3), 4, true, 512)));
    Ok(())
}

#[test]
fn entries_have_fields(rt: HostRuntime) -> Result<(), Fail> {
    let alloc = rt.alloc();
    let octets = hex::decode(
        alloc,
        "302402050123430235170d3236313132333038313030375a300c300a0603551d1504030a0101",
    )?;
    let found = entry_told(alloc, octets.as_slice());
    let number = hex::decode(alloc, "0123430235")?;
    same(&rt, found, Ok((number, 1)));
    Ok(())
}
