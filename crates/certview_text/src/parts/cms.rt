//! The components of the types of `cms`.
//!
//! Made by tools/asn1.

use super::{Component, Part};

pub(super) static CMS_CONTENT_INFO: [Component; 2] = [
    Component("contentType", None, Part::Value),
    Component("content", None, Part::Value),
];

pub(super) static SIGNED_DATA: [Component; 6] = [
    Component("version", None, Part::Value),
    Component("digestAlgorithms", None, Part::SetOfAlgorithmIdentifier),
    Component("encapContentInfo", None, Part::EncapsulatedContentInfo),
    Component("certificates", Some(0xa0), Part::CertificateSet),
    Component("crls", Some(0xa1), Part::RevocationInfoChoices),
    Component("signerInfos", None, Part::SetOfSignerInfo),
];

pub(super) static ENCAPSULATED_CONTENT_INFO: [Component; 2] = [
    Component("eContentType", None, Part::Value),
    Component("eContent", Some(0xa0), Part::Value),
];

pub(super) static CERTIFICATE_SET: [Component; 5] = [
    Component("", Some(0x30), Part::Certificate),
    Component("", Some(0xa0), Part::Value),
    Component("", Some(0xa1), Part::Value),
    Component("", Some(0xa2), Part::Value),
    Component("", Some(0xa3), Part::AttributeTypeAndValue),
];

pub(super) static REVOCATION_INFO_CHOICES: [Component; 2] = [
    Component("", Some(0x30), Part::CertificateList),
    Component("", Some(0xa1), Part::AttributeTypeAndValue),
];

pub(super) static SET_OF_SIGNER_INFO: [Component; 1] = [Component("", None, Part::SignerInfo)];

pub(super) static SIGNER_INFO: [Component; 8] = [
    Component("version", None, Part::Value),
    Component("sid", Some(0x30), Part::IssuerAndSerialNumber),
    Component("sid", Some(0x80), Part::Value),
    Component("digestAlgorithm", None, Part::AlgorithmIdentifier),
    Component("signedAttrs", Some(0xa0), Part::SignedAttributes),
    Component("signatureAlgorithm", None, Part::AlgorithmIdentifier),
    Component("signature", None, Part::Value),
    Component("unsignedAttrs", Some(0xa1), Part::UnsignedAttributes),
];

pub(super) static ISSUER_AND_SERIAL_NUMBER: [Component; 2] = [
    Component("issuer", None, Part::RdnSequence),
    Component("serialNumber", None, Part::Value),
];

pub(super) static SIGNED_ATTRIBUTES: [Component; 1] = [Component("", None, Part::Attribute)];

pub(super) static UNSIGNED_ATTRIBUTES: [Component; 1] = [Component("", None, Part::Attribute)];

pub(super) static DIGESTED_DATA: [Component; 4] = [
    Component("version", None, Part::Value),
    Component("digestAlgorithm", None, Part::AlgorithmIdentifier),
    Component("encapContentInfo", None, Part::EncapsulatedContentInfo),
    Component("digest", None, Part::Value),
];

pub(super) static ENCRYPTED_DATA: [Component; 3] = [
    Component("version", None, Part::Value),
    Component("encryptedContentInfo", None, Part::EncryptedContentInfo),
    Component("unprotectedAttrs", Some(0xa1), Part::UnsignedAttributes),
];

pub(super) static ENCRYPTED_CONTENT_INFO: [Component; 3] = [
    Component("contentType", None, Part::Value),
    Component(
        "contentEncryptionAlgorithm",
        None,
        Part::AlgorithmIdentifier,
    ),
    Component("encryptedContent", Some(0x80), Part::Value),
];
