//! The components of the types of `request`.
//!
//! Made by tools/asn1.

use super::{Component, Part};

pub(super) static CERTIFICATION_REQUEST: [Component; 3] = [
    Component(
        "certificationRequestInfo",
        None,
        Part::CertificationRequestInfo,
    ),
    Component("signatureAlgorithm", None, Part::AlgorithmIdentifier),
    Component("signature", None, Part::Value),
];

pub(super) static CERTIFICATION_REQUEST_INFO: [Component; 4] = [
    Component("version", None, Part::Value),
    Component("subject", None, Part::RdnSequence),
    Component("subjectPKInfo", None, Part::SubjectPublicKeyInfo),
    Component("attributes", None, Part::Attributes),
];
