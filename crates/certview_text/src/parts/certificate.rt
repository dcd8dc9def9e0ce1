//! The components of the types of `certificate`.
//!
//! Made by tools/asn1.

use super::{Component, Part};

pub(super) static CERTIFICATE: [Component; 3] = [
    Component("tbsCertificate", None, Part::TbsCertificate),
    Component("signatureAlgorithm", None, Part::AlgorithmIdentifier),
    Component("signatureValue", None, Part::Value),
];

pub(super) static TBS_CERTIFICATE: [Component; 10] = [
    Component("version", Some(0xa0), Part::Value),
    Component("serialNumber", None, Part::Value),
    Component("signature", None, Part::AlgorithmIdentifier),
    Component("issuer", None, Part::RdnSequence),
    Component("validity", None, Part::Validity),
    Component("subject", None, Part::RdnSequence),
    Component("subjectPublicKeyInfo", None, Part::SubjectPublicKeyInfo),
    Component("issuerUniqueID", Some(0x81), Part::Value),
    Component("subjectUniqueID", Some(0x82), Part::Value),
    Component("extensions", Some(0xa3), Part::ExplicitExtensions),
];

pub(super) static ALGORITHM_IDENTIFIER: [Component; 2] = [
    Component("algorithm", None, Part::Value),
    Component("parameters", None, Part::Value),
];

pub(super) static VALIDITY: [Component; 4] = [
    Component("notBefore", Some(0x17), Part::Value),
    Component("notBefore", Some(0x18), Part::Value),
    Component("notAfter", Some(0x17), Part::Value),
    Component("notAfter", Some(0x18), Part::Value),
];

pub(super) static SUBJECT_PUBLIC_KEY_INFO: [Component; 2] = [
    Component("algorithm", None, Part::AlgorithmIdentifier),
    Component("subjectPublicKey", None, Part::Value),
];

pub(super) static EXPLICIT_EXTENSIONS: [Component; 1] = [Component("", None, Part::Extensions)];

pub(super) static EXTENSIONS: [Component; 1] = [Component("", None, Part::Extension)];

pub(super) static EXTENSION: [Component; 3] = [
    Component("extnID", None, Part::Value),
    Component("critical", Some(0x01), Part::Value),
    Component("extnValue", None, Part::Value),
];

pub(super) static SET_OF_ALGORITHM_IDENTIFIER: [Component; 1] = [Component(
    "",
    None,
    Part::AlgorithmIdentifier,
)];

pub(super) static EXPLICIT_ALGORITHM_IDENTIFIER: [Component; 1] = [Component(
    "",
    None,
    Part::AlgorithmIdentifier,
)];
