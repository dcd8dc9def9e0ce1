//! The components of the types of `algorithm`.
//!
//! Made by tools/asn1.

use super::{Component, Part};

pub(super) static RSASSA_PSS_PARAMS: [Component; 4] = [
    Component(
        "hashAlgorithm",
        Some(0xa0),
        Part::ExplicitAlgorithmIdentifier,
    ),
    Component(
        "maskGenAlgorithm",
        Some(0xa1),
        Part::ExplicitAlgorithmIdentifier,
    ),
    Component("saltLength", Some(0xa2), Part::Value),
    Component("trailerField", Some(0xa3), Part::Value),
];

pub(super) static RSAES_OAEP_PARAMS: [Component; 3] = [
    Component("hashFunc", Some(0xa0), Part::ExplicitAlgorithmIdentifier),
    Component("maskGenFunc", Some(0xa1), Part::ExplicitAlgorithmIdentifier),
    Component("pSourceFunc", Some(0xa2), Part::ExplicitAlgorithmIdentifier),
];

pub(super) static ECDSA_SIG_VALUE: [Component; 2] = [
    Component("r", None, Part::Value),
    Component("s", None, Part::Value),
];

pub(super) static DSS_PARMS: [Component; 3] = [
    Component("p", None, Part::Value),
    Component("q", None, Part::Value),
    Component("g", None, Part::Value),
];

pub(super) static DOMAIN_PARAMETERS: [Component; 5] = [
    Component("p", None, Part::Value),
    Component("g", None, Part::Value),
    Component("q", None, Part::Value),
    Component("j", Some(0x02), Part::Value),
    Component("validationParms", Some(0x30), Part::ValidationParms),
];

pub(super) static VALIDATION_PARMS: [Component; 2] = [
    Component("seed", None, Part::Value),
    Component("pgenCounter", None, Part::Value),
];

pub(super) static DH_PARAMETER: [Component; 3] = [
    Component("prime", None, Part::Value),
    Component("base", None, Part::Value),
    Component("privateValueLength", Some(0x02), Part::Value),
];
