//! The components of the types of `key`.
//!
//! Made by tools/asn1.

use super::{Component, Part};

pub(super) static ONE_ASYMMETRIC_KEY: [Component; 5] = [
    Component("version", None, Part::Value),
    Component("privateKeyAlgorithm", None, Part::AlgorithmIdentifier),
    Component("privateKey", None, Part::Value),
    Component("attributes", Some(0xa0), Part::Attributes),
    Component("publicKey", Some(0x81), Part::Value),
];

pub(super) static ATTRIBUTES: [Component; 1] = [Component("", None, Part::Attribute)];

pub(super) static RSA_PUBLIC_KEY: [Component; 2] = [
    Component("modulus", None, Part::Value),
    Component("publicExponent", None, Part::Value),
];

pub(super) static RSA_PRIVATE_KEY: [Component; 10] = [
    Component("version", None, Part::Value),
    Component("modulus", None, Part::Value),
    Component("publicExponent", None, Part::Value),
    Component("privateExponent", None, Part::Value),
    Component("prime1", None, Part::Value),
    Component("prime2", None, Part::Value),
    Component("exponent1", None, Part::Value),
    Component("exponent2", None, Part::Value),
    Component("coefficient", None, Part::Value),
    Component("otherPrimeInfos", Some(0x30), Part::OtherPrimeInfos),
];

pub(super) static OTHER_PRIME_INFOS: [Component; 1] = [Component("", None, Part::OtherPrimeInfo)];

pub(super) static OTHER_PRIME_INFO: [Component; 3] = [
    Component("prime", None, Part::Value),
    Component("exponent", None, Part::Value),
    Component("coefficient", None, Part::Value),
];

pub(super) static EC_PRIVATE_KEY: [Component; 4] = [
    Component("version", None, Part::Value),
    Component("privateKey", None, Part::Value),
    Component("parameters", Some(0xa0), Part::ExplicitEcParameters),
    Component("publicKey", Some(0xa1), Part::Value),
];

pub(super) static EXPLICIT_EC_PARAMETERS: [Component; 3] = [
    Component("", Some(0x06), Part::Value),
    Component("", Some(0x05), Part::Value),
    Component("", Some(0x30), Part::SpecifiedEcDomain),
];

pub(super) static SPECIFIED_EC_DOMAIN: [Component; 7] = [
    Component("version", None, Part::Value),
    Component("fieldID", None, Part::FieldId),
    Component("curve", None, Part::Curve),
    Component("base", None, Part::Value),
    Component("order", None, Part::Value),
    Component("cofactor", Some(0x02), Part::Value),
    Component("hash", Some(0x30), Part::AlgorithmIdentifier),
];

pub(super) static FIELD_ID: [Component; 2] = [
    Component("fieldType", None, Part::Value),
    Component("parameters", None, Part::Value),
];

pub(super) static CURVE: [Component; 3] = [
    Component("a", None, Part::Value),
    Component("b", None, Part::Value),
    Component("seed", Some(0x03), Part::Value),
];
