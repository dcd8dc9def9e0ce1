//! The components of the types of `pkcs12`.
//!
//! Made by tools/asn1.

use super::{Component, Part};

pub(super) static PFX: [Component; 3] = [
    Component("version", None, Part::Value),
    Component("authSafe", None, Part::Pkcs12ContentInfo),
    Component("macData", Some(0x30), Part::MacData),
];

pub(super) static PKCS12_CONTENT_INFO: [Component; 2] = [
    Component("contentType", None, Part::Value),
    Component("content", Some(0xa0), Part::Value),
];

pub(super) static MAC_DATA: [Component; 3] = [
    Component("mac", None, Part::DigestInfo),
    Component("macSalt", None, Part::Value),
    Component("iterations", Some(0x02), Part::Value),
];

pub(super) static DIGEST_INFO: [Component; 2] = [
    Component("digestAlgorithm", None, Part::AlgorithmIdentifier),
    Component("digest", None, Part::Value),
];

pub(super) static AUTHENTICATED_SAFE: [Component; 1] = [Component(
    "",
    None,
    Part::Pkcs12ContentInfo,
)];

pub(super) static SAFE_CONTENTS: [Component; 1] = [Component("", None, Part::SafeBag)];

pub(super) static SAFE_BAG: [Component; 3] = [
    Component("bagId", None, Part::Value),
    Component("bagValue", None, Part::Value),
    Component("bagAttributes", Some(0x31), Part::Attributes),
];

pub(super) static CERT_BAG: [Component; 2] = [
    Component("certId", None, Part::Value),
    Component("certValue", None, Part::Value),
];

pub(super) static CRL_BAG: [Component; 2] = [
    Component("crlId", None, Part::Value),
    Component("crlValue", None, Part::Value),
];

pub(super) static SECRET_BAG: [Component; 2] = [
    Component("secretTypeId", None, Part::Value),
    Component("secretValue", None, Part::Value),
];
