//! The components of the types of `enveloped`.
//!
//! Made by tools/asn1.

use super::{Component, Part};

pub(super) static ENVELOPED_DATA: [Component; 5] = [
    Component("version", None, Part::Value),
    Component("originatorInfo", Some(0xa0), Part::OriginatorInfo),
    Component("recipientInfos", None, Part::RecipientInfos),
    Component("encryptedContentInfo", None, Part::EncryptedContentInfo),
    Component("unprotectedAttrs", Some(0xa1), Part::UnsignedAttributes),
];

pub(super) static ORIGINATOR_INFO: [Component; 2] = [
    Component("certs", Some(0xa0), Part::CertificateSet),
    Component("crls", Some(0xa1), Part::RevocationInfoChoices),
];

pub(super) static RECIPIENT_INFOS: [Component; 5] = [
    Component("", Some(0x30), Part::KeyTransRecipientInfo),
    Component("", Some(0xa1), Part::KeyAgreeRecipientInfo),
    Component("", Some(0xa2), Part::KekRecipientInfo),
    Component("", Some(0xa3), Part::PasswordRecipientInfo),
    Component("", Some(0xa4), Part::AttributeTypeAndValue),
];

pub(super) static KEY_TRANS_RECIPIENT_INFO: [Component; 5] = [
    Component("version", None, Part::Value),
    Component("rid", Some(0x30), Part::IssuerAndSerialNumber),
    Component("rid", Some(0x80), Part::Value),
    Component("keyEncryptionAlgorithm", None, Part::AlgorithmIdentifier),
    Component("encryptedKey", None, Part::Value),
];

pub(super) static KEY_AGREE_RECIPIENT_INFO: [Component; 5] = [
    Component("version", None, Part::Value),
    Component("originator", None, Part::ExplicitOriginatorIdentifierOrKey),
    Component("ukm", Some(0xa1), Part::Value),
    Component("keyEncryptionAlgorithm", None, Part::AlgorithmIdentifier),
    Component("recipientEncryptedKeys", None, Part::RecipientEncryptedKeys),
];

pub(super) static EXPLICIT_ORIGINATOR_IDENTIFIER_OR_KEY: [Component; 3] = [
    Component("", Some(0x30), Part::IssuerAndSerialNumber),
    Component("", Some(0x80), Part::Value),
    Component("", Some(0xa1), Part::SubjectPublicKeyInfo),
];

pub(super) static RECIPIENT_ENCRYPTED_KEYS: [Component; 1] = [Component(
    "",
    None,
    Part::RecipientEncryptedKey,
)];

pub(super) static RECIPIENT_ENCRYPTED_KEY: [Component; 3] = [
    Component("rid", Some(0x30), Part::IssuerAndSerialNumber),
    Component("rid", Some(0xa0), Part::RecipientKeyIdentifier),
    Component("encryptedKey", None, Part::Value),
];

pub(super) static RECIPIENT_KEY_IDENTIFIER: [Component; 3] = [
    Component("subjectKeyIdentifier", None, Part::Value),
    Component("date", Some(0x18), Part::Value),
    Component("other", Some(0x30), Part::AlgorithmIdentifier),
];

pub(super) static KEK_RECIPIENT_INFO: [Component; 4] = [
    Component("version", None, Part::Value),
    Component("kekid", None, Part::RecipientKeyIdentifier),
    Component("keyEncryptionAlgorithm", None, Part::AlgorithmIdentifier),
    Component("encryptedKey", None, Part::Value),
];

pub(super) static PASSWORD_RECIPIENT_INFO: [Component; 4] = [
    Component("version", None, Part::Value),
    Component(
        "keyDerivationAlgorithm",
        Some(0xa0),
        Part::AlgorithmIdentifier,
    ),
    Component("keyEncryptionAlgorithm", None, Part::AlgorithmIdentifier),
    Component("encryptedKey", None, Part::Value),
];
