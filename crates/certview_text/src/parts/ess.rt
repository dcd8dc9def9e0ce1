//! The components of the types of `ess`.
//!
//! Made by tools/asn1.

use super::{Component, Part};

pub(super) static SIGNING_CERTIFICATE: [Component; 2] = [
    Component("certs", None, Part::SequenceOfEssCertId),
    Component("policies", Some(0x30), Part::SequenceOfPolicyInformation),
];

pub(super) static SEQUENCE_OF_ESS_CERT_ID: [Component; 1] = [Component("", None, Part::EssCertId)];

pub(super) static ESS_CERT_ID: [Component; 2] = [
    Component("certHash", None, Part::Value),
    Component("issuerSerial", Some(0x30), Part::IssuerSerial),
];

pub(super) static ISSUER_SERIAL: [Component; 2] = [
    Component("issuer", None, Part::GeneralNames),
    Component("serialNumber", None, Part::Value),
];

pub(super) static SIGNING_CERTIFICATE_V2: [Component; 2] = [
    Component("certs", None, Part::SequenceOfEssCertIdv2),
    Component("policies", Some(0x30), Part::SequenceOfPolicyInformation),
];

pub(super) static SEQUENCE_OF_ESS_CERT_IDV2: [Component; 1] = [Component(
    "",
    None,
    Part::EssCertIdv2,
)];

pub(super) static ESS_CERT_IDV2: [Component; 3] = [
    Component("hashAlgorithm", Some(0x30), Part::AlgorithmIdentifier),
    Component("certHash", None, Part::Value),
    Component("issuerSerial", Some(0x30), Part::IssuerSerial),
];
