//! The components of the types of `crl`.
//!
//! Made by tools/asn1.

use super::{Component, Part};

pub(super) static CERTIFICATE_LIST: [Component; 3] = [
    Component("tbsCertList", None, Part::TbsCertList),
    Component("signatureAlgorithm", None, Part::AlgorithmIdentifier),
    Component("signatureValue", None, Part::Value),
];

pub(super) static TBS_CERT_LIST: [Component; 9] = [
    Component("version", Some(0x02), Part::Value),
    Component("signature", None, Part::AlgorithmIdentifier),
    Component("issuer", None, Part::RdnSequence),
    Component("thisUpdate", Some(0x17), Part::Value),
    Component("thisUpdate", Some(0x18), Part::Value),
    Component("nextUpdate", Some(0x17), Part::Value),
    Component("nextUpdate", Some(0x18), Part::Value),
    Component(
        "revokedCertificates",
        Some(0x30),
        Part::SequenceOfRevokedCertificate,
    ),
    Component("crlExtensions", Some(0xa0), Part::ExplicitExtensions),
];

pub(super) static SEQUENCE_OF_REVOKED_CERTIFICATE: [Component; 1] = [Component(
    "",
    None,
    Part::RevokedCertificate,
)];

pub(super) static REVOKED_CERTIFICATE: [Component; 4] = [
    Component("userCertificate", None, Part::Value),
    Component("revocationDate", Some(0x17), Part::Value),
    Component("revocationDate", Some(0x18), Part::Value),
    Component("crlEntryExtensions", Some(0x30), Part::Extensions),
];
