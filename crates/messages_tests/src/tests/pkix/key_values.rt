//! Values of extensions that are about a key.

use crate::tests::{copied, numbered, same};
use der_asn1_types::FromDer;
use der_asn1_types::asn1::GeneralizedTime;
use der_extensions::extension::constants::ID_KP_CLIENT_AUTH;
use der_extensions::extension::{
    AuthorityKeyIdentifier, ExtKeyUsageSyntax, KEY_USAGE_CRL_SIGN, KEY_USAGE_DIGITAL_SIGNATURE,
    KEY_USAGE_KEY_CERT_SIGN, KeyUsage, PrivateKeyUsagePeriod, SubjectKeyIdentifier,
};
use std::alloc::Global;
use std::process::Abort;
use std::test::Fail;

// Returns whether a key may sign certificates, lists, and data.
fn usage_told(alloc: Global, octets: &[u8]) -> Result<(bool, bool, bool), u8> {
    match KeyUsage::from_der(alloc, octets) {
        Ok(usage) => Ok((
            usage.has(KEY_USAGE_KEY_CERT_SIGN),
            usage.has(KEY_USAGE_CRL_SIGN),
            usage.has(KEY_USAGE_DIGITAL_SIGNATURE),
        )),
        Err(e) => Err(e.kind().number()),
    }
}

// Returns the number of purposes, and whether the last one is that of a client.
fn purposes_told(alloc: Global, octets: &[u8]) -> Result<(usize, bool), u8> {
    match ExtKeyUsageSyntax::from_der(alloc, octets) {
        Ok(purposes) => {
            let count = numbered(purposes.items().count(alloc))?;
            match purposes.items().get(alloc, count.saturating_sub(1)) {
                Some(Ok(last)) => Ok((count, last.as_bytes() == ID_KP_CLIENT_AUTH.as_slice())),
                Some(Err(e)) => Err(e.kind().number()),
                None => Err(0),
            }
        }
        Err(e) => Err(e.kind().number()),
    }
}

fn key_identifier_told(alloc: Global, octets: &[u8]) -> Result<Vec<u8>, u8> {
    match SubjectKeyIdentifier::from_der(alloc, octets) {
        Ok(identifier) => copied(alloc, identifier.as_bytes()),
        Err(e) => Err(e.kind().number()),
    }
}

// Returns the octets of the key's identifier, the number of the issuer's names, and the octets of
// the serial number.
fn authority_told(
    alloc: Global,
    octets: &[u8],
) -> Result<(Option<usize>, Option<usize>, Option<usize>), u8> {
    match AuthorityKeyIdentifier::from_der(alloc, octets) {
        Ok(authority) => {
            let identifier = match authority.key_identifier() {
                Some(identifier) => Some(identifier.as_bytes().len()),
                None => None,
            };
            let issuer = match authority.authority_cert_issuer() {
                Some(names) => Some(numbered(names.items().count(alloc))?),
                None => None,
            };
            let serial = match authority.authority_cert_serial_number() {
                Some(number) => Some(number.as_bytes().len()),
                None => None,
            };
            Ok((identifier, issuer, serial))
        }
        Err(e) => Err(e.kind().number()),
    }
}

// Returns the years of a period's two ends.
fn period_told(alloc: Global, octets: &[u8]) -> Result<(Option<u16>, Option<u16>), u8> {
    match PrivateKeyUsagePeriod::from_der(alloc, octets) {
        Ok(period) => Ok((year_of(period.not_before()), year_of(period.not_after()))),
        Err(e) => Err(e.kind().number()),
    }
}

fn year_of(time: Option<GeneralizedTime>) -> Option<u16> {
    match time {
        Some(time) => Some(time.to_date_time().year()),
        None => None,
    }
}

#[test]
fn authorities_have_fields(rt: HostRuntime) -> Result<(), Fail> {
    let alloc = rt.alloc();
    let octets = hex::decode(alloc, "301680140894da7aed9f78720d852c7a00aae7c41f546dd2")?;
    let found = authority_told(alloc, octets.as_slice());
    same(&rt, found, Ok((Some(20), None, None)));
    let octets = hex::decode(
        alloc,
        "305f80140894da7aed9f78720d852c7a00aae7c41f546dd2a131a42f302d310b3009060355040613025345310f300d060355040a0c064261726c6579310d300b06035504030c046d696c6c82141a97d371a1ffc8752e885333be272ab7dbd323cb",
    )?;
    let found = authority_told(alloc, octets.as_slice());
    same(&rt, found, Ok((Some(20), Some(1), Some(20))));
    Ok(())
}

#[test]
fn usages_have_bits(rt: HostRuntime) -> Result<(), Fail> {
    let alloc = rt.alloc();
    let octets = hex::decode(alloc, "03020106")?;
    let found = usage_told(alloc, octets.as_slice());
    same(&rt, found, Ok((true, true, false)));
    let octets = hex::decode(alloc, "030205a0")?;
    let found = usage_told(alloc, octets.as_slice());
    same(&rt, found, Ok((false, false, true)));
    Ok(())
}

#[test]
fn purposes_have_identifiers(rt: HostRuntime) -> Result<(), Fail> {
    let alloc = rt.alloc();
    let octets = hex::decode(alloc, "301406082b0601050507030106082b06010505070302")?;
    let found = purposes_told(alloc, octets.as_slice());
    same(&rt, found, Ok((2, true)));
    Ok(())
}

#[test]
fn key_identifiers_are_octets(rt: HostRuntime) -> Result<(), Fail> {
    let alloc = rt.alloc();
    let octets = hex::decode(alloc, "0414d861bbf0f0e49add54a4c9082f3a2f0afa983135")?;
    let found = key_identifier_told(alloc, octets.as_slice())?;
    let wanted = hex::decode(alloc, "d861bbf0f0e49add54a4c9082f3a2f0afa983135")?;
    same(&rt, found.as_slice(), wanted.as_slice());
    Ok(())
}

#[test]
fn periods_have_ends(rt: HostRuntime) -> Result<(), Fail> {
    let alloc = rt.alloc();
    let octets = hex::decode(
        alloc,
        "3022800f32303236313132333034333831385a810f32303237303932333034333831385a",
    )?;
    let found = period_told(alloc, octets.as_slice());
    same(&rt, found, Ok((Some(2026), Some(2027))));
    let octets = hex::decode(alloc, "3011810f32303237303932333034333831385a")?;
    let found = period_told(alloc, octets.as_slice());
    same(&rt, found, Ok((None, Some(2027))));
    Ok(())
}
