//! Places in lists of revoked certificates.

use super::at;
use crate::tests::same;
use der_elem::FromDer;
use der_pkix::crl::CertificateList;
use der_places::crl::{CertificateListPlaces, RevokedCertificatePlaces, TbsCertListPlaces};
use der_places::{contents_of, places_of};
use std::alloc::Global;
use std::test::Fail;

/// `openssl ca -gencrl -keyfile mill.key -cert mill.pem`.
const LIST: &str =
    "308198304c300506032b6570300f310d300b06035504030c046d696c6c170d3236313132373136353730375a170d3236313232373136353730375a30143012020101170d3236313132373136353730375a300506032b6570034100050c23f211346a07339444341a82893c30098c8060a3cf8b7107f2996f4d5519643ebc657118585796e93fd50fafb9bf43d5dfc85105567b2b9f58b26d025003";

// Returns the byte ranges of the fields of a list and of its signed part.
fn fields(alloc: Global, octets: &[u8]) -> Result<(CertificateListPlaces, TbsCertListPlaces), u8> {
    match CertificateList::from_der(alloc, octets) {
        Ok(list) => {
            let parts = places_of(&list, octets, 0);
            let offset = parts.tbs_cert_list.offset;
            Ok((parts, places_of(list.tbs_cert_list(), octets, offset)))
        }
        Err(e) => Err(e.kind().number()),
    }
}

// Returns the byte ranges of the fields of the first entry.
fn first_entry(alloc: Global, octets: &[u8]) -> Result<Option<RevokedCertificatePlaces>, u8> {
    match CertificateList::from_der(alloc, octets) {
        Ok(list) => Ok(entry_of(alloc, &list, octets)),
        Err(e) => Err(e.kind().number()),
    }
}

fn entry_of(
    alloc: Global,
    list: &CertificateList<'_>,
    octets: &[u8],
) -> Option<RevokedCertificatePlaces> {
    let entries = list.tbs_cert_list().revoked_certificates()?;
    let offset = contents_of(octets, at(59, 22)).offset;
    match entries.get(alloc, 0) {
        Some(Ok(entry)) => Some(places_of(&entry, octets, offset)),
        _ => None,
    }
}

#[test]
fn the_fields_of_a_list_stand_where_openssl_says(rt: HostRuntime) -> Result<(), Fail> {
    let alloc = rt.alloc();
    let octets = hex::decode(alloc, LIST)?;
    let parts = CertificateListPlaces {
        tbs_cert_list: at(3, 78),
        signature_algorithm: at(81, 7),
        signature_value: at(88, 67),
    };
    let signed = TbsCertListPlaces {
        version: at(5, 0),
        signature: at(5, 7),
        issuer: at(12, 17),
        this_update: at(29, 15),
        next_update: at(44, 15),
        revoked_certificates: at(59, 22),
        crl_extensions: at(81, 0),
    };
    same(&rt, fields(alloc, octets.as_slice()), Ok((parts, signed)));
    Ok(())
}

#[test]
fn the_fields_of_an_entry_stand_where_openssl_says(rt: HostRuntime) -> Result<(), Fail> {
    let alloc = rt.alloc();
    let octets = hex::decode(alloc, LIST)?;
    let entry = RevokedCertificatePlaces {
        user_certificate: at(63, 3),
        revocation_date: at(66, 15),
        crl_entry_extensions: at(81, 0),
    };
    let found = first_entry(alloc, octets.as_slice());
    same(&rt, found, Ok(Some(entry)));
    Ok(())
}
