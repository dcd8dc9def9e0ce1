//! Places in certificates.

use super::at;
use crate::tests::same;
use der_elem::FromDer;
use der_pkix::certificate::{Certificate, Extensions, SubjectPublicKeyInfo};
use der_places::certificate::{
    CertificatePlaces, ExtensionPlaces, SubjectPublicKeyInfoPlaces, TbsCertificatePlaces,
};
use der_places::{Place, contents_of, places_of};
use std::alloc::Global;
use std::test::Fail;

/// `openssl ca -selfsign -keyfile mill.key -in mill.csr -startdate 491231235959Z -enddate
/// 20500101000000Z -extensions ext`. The section has basicConstraints, keyUsage,
/// subjectKeyIdentifier and subjectAltName.
const CERTIFICATE: &str =
    "308201293081dca003020102020101300506032b6570300f310d300b06035504030c046d696c6c3020170d3439313233313233353935395a180f32303530303130313030303030305a300f310d300b06035504030c046d696c6c302a300506032b6570032100e96776c112e1bb8939860bdd34e9fa94ed769b579919d3918b7dea083a1fb847a35b3059300f0603551d130101ff040530030101ff300e0603551d0f0101ff040403020106301d0603551d0e04160414d40d52919d787be8dcfa38f0bf93c8e599eda0e430170603551d110410300e820c6d696c6c2e6578616d706c65300506032b65700341009df33684beadeb10aeb0fdf18ebf7d65a0efa75b1fa556260fa413243a1f3a5b9642822699661e90dc7f5ab6290c95488d8d8bff26c7276f18a3b4dacbc8ac00";

/// The certificate above in version 1, with a unique identifier of the issuer and no extensions.
const WITH_UNIQUE: &str =
    "3081ca307e020101300506032b6570300f310d300b06035504030c046d696c6c3020170d3439313233313233353935395a180f32303530303130313030303030305a300f310d300b06035504030c046d696c6c302a300506032b6570032100e96776c112e1bb8939860bdd34e9fa94ed769b579919d3918b7dea083a1fb84781020055300506032b65700341009df33684beadeb10aeb0fdf18ebf7d65a0efa75b1fa556260fa413243a1f3a5b9642822699661e90dc7f5ab6290c95488d8d8bff26c7276f18a3b4dacbc8ac00";

// Returns the byte ranges of the fields of a certificate and of its signed part, or the number of
// the error.
fn fields(alloc: Global, octets: &[u8]) -> Result<(CertificatePlaces, TbsCertificatePlaces), u8> {
    match Certificate::from_der(alloc, octets) {
        Ok(certificate) => {
            let parts = places_of(&certificate, octets, 0);
            let offset = parts.tbs_certificate.offset;
            let signed = places_of(certificate.tbs_certificate(), octets, offset);
            Ok((parts, signed))
        }
        Err(e) => Err(e.kind().number()),
    }
}

// Returns the byte ranges of the fields of the first two extensions.
fn first_extensions(
    alloc: Global,
    octets: &[u8],
) -> Result<Option<(ExtensionPlaces, ExtensionPlaces)>, u8> {
    match Certificate::from_der(alloc, octets) {
        Ok(certificate) => Ok(two_extensions(alloc, &certificate, octets)),
        Err(e) => Err(e.kind().number()),
    }
}

fn two_extensions(
    alloc: Global,
    certificate: &Certificate<'_>,
    octets: &[u8],
) -> Option<(ExtensionPlaces, ExtensionPlaces)> {
    let extensions = certificate.tbs_certificate().extensions()?;
    let one = extension_at(alloc, extensions, 0, octets, 138)?;
    let second = extension_at(alloc, extensions, 1, octets, one.extn_value.behind())?;
    Some((one, second))
}

// Returns the byte ranges of the fields of the extension with this index in the list, at this
// offset.
fn extension_at(
    alloc: Global,
    extensions: &Extensions<'_>,
    index: usize,
    octets: &[u8],
    offset: u32,
) -> Option<ExtensionPlaces> {
    match extensions.items().get(alloc, index) {
        Some(Ok(extension)) => Some(places_of(&extension, octets, offset)),
        _ => None,
    }
}

// Returns the byte ranges of the fields of a key.
fn key_fields(alloc: Global, octets: &[u8]) -> Result<SubjectPublicKeyInfoPlaces, u8> {
    match SubjectPublicKeyInfo::from_der(alloc, octets) {
        Ok(key) => Ok(places_of(&key, octets, 0)),
        Err(e) => Err(e.kind().number()),
    }
}

#[test]
fn the_fields_of_a_certificate_stand_where_openssl_says(rt: HostRuntime) -> Result<(), Fail> {
    let alloc = rt.alloc();
    let octets = hex::decode(alloc, CERTIFICATE)?;
    let parts = CertificatePlaces {
        tbs_certificate: at(4, 223),
        signature_algorithm: at(227, 7),
        signature_value: at(234, 67),
    };
    let signed = TbsCertificatePlaces {
        version: at(7, 5),
        serial_number: at(12, 3),
        signature: at(15, 7),
        issuer: at(22, 17),
        validity: at(39, 34),
        subject: at(73, 17),
        subject_public_key_info: at(90, 44),
        issuer_unique_id: at(134, 0),
        subject_unique_id: at(134, 0),
        extensions: at(134, 93),
    };
    same(&rt, fields(alloc, octets.as_slice()), Ok((parts, signed)));
    Ok(())
}

#[test]
fn fields_that_are_absent_have_no_octets(rt: HostRuntime) -> Result<(), Fail> {
    let alloc = rt.alloc();
    let octets = hex::decode(alloc, WITH_UNIQUE)?;
    let parts = CertificatePlaces {
        tbs_certificate: at(3, 128),
        signature_algorithm: at(131, 7),
        signature_value: at(138, 67),
    };
    let signed = TbsCertificatePlaces {
        version: at(5, 0),
        serial_number: at(5, 3),
        signature: at(8, 7),
        issuer: at(15, 17),
        validity: at(32, 34),
        subject: at(66, 17),
        subject_public_key_info: at(83, 44),
        issuer_unique_id: at(127, 4),
        subject_unique_id: at(131, 0),
        extensions: at(131, 0),
    };
    same(&rt, fields(alloc, octets.as_slice()), Ok((parts, signed)));
    Ok(())
}

#[test]
fn the_fields_of_extensions_stand_where_openssl_says(rt: HostRuntime) -> Result<(), Fail> {
    let alloc = rt.alloc();
    let octets = hex::decode(alloc, CERTIFICATE)?;
    let first = ExtensionPlaces {
        extn_id: at(140, 5),
        critical: at(145, 3),
        extn_value: at(148, 7),
    };
    let second = ExtensionPlaces {
        extn_id: at(157, 5),
        critical: at(162, 3),
        extn_value: at(165, 6),
    };
    let found = first_extensions(alloc, octets.as_slice());
    same(&rt, found, Ok(Some((first, second))));
    Ok(())
}

#[test]
fn contents_stand_behind_their_header(rt: HostRuntime) -> Result<(), Fail> {
    let alloc = rt.alloc();
    let octets = hex::decode(alloc, CERTIFICATE)?;
    let list: Place = contents_of(octets.as_slice(), at(134, 93));
    same(&rt, list, at(136, 91));
    same(&rt, contents_of(octets.as_slice(), list), at(138, 89));
    same(&rt, contents_of(octets.as_slice(), at(4, 223)), at(7, 220));
    Ok(())
}

#[test]
fn the_fields_of_a_key_stand_where_openssl_says(rt: HostRuntime) -> Result<(), Fail> {
    let alloc = rt.alloc();
    let digits =
        "302a300506032b6570032100e96776c112e1bb8939860bdd34e9fa94ed769b579919d3918b7dea083a1fb847";
    let octets = hex::decode(alloc, digits)?;
    let key = SubjectPublicKeyInfoPlaces {
        algorithm: at(2, 7),
        subject_public_key: at(9, 35),
    };
    same(&rt, key_fields(alloc, octets.as_slice()), Ok(key));
    Ok(())
}
