//! The components of the types of `encryption`.
//!
//! Made by tools/asn1.

use super::{Component, Part};

pub(super) static ENCRYPTED_PRIVATE_KEY_INFO: [Component; 2] = [
    Component("encryptionAlgorithm", None, Part::AlgorithmIdentifier),
    Component("encryptedData", None, Part::Value),
];

pub(super) static PBKDF2_PARAMS: [Component; 5] = [
    Component("salt", Some(0x04), Part::Value),
    Component("salt", Some(0x30), Part::AlgorithmIdentifier),
    Component("iterationCount", None, Part::Value),
    Component("keyLength", Some(0x02), Part::Value),
    Component("prf", Some(0x30), Part::AlgorithmIdentifier),
];

pub(super) static PBE_PARAMETER: [Component; 2] = [
    Component("salt", None, Part::Value),
    Component("iterationCount", None, Part::Value),
];

pub(super) static PBES2_PARAMS: [Component; 2] = [
    Component("keyDerivationFunc", None, Part::AlgorithmIdentifier),
    Component("encryptionScheme", None, Part::AlgorithmIdentifier),
];
