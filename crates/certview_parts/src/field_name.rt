//! The names of fields.

use std::alloc::{AllocError, Global};

/// The name of a field that a message may have. A line shows it as the label of the field.
#[derive(Clone, Copy, Debug, PartialEq, Eq)]
pub enum FieldName {
    /// `a`
    A,
    /// `accuracy`
    Accuracy,
    /// `alias`
    Alias,
    /// `at`
    At,
    /// `attribute`
    Attribute,
    /// `attribute certificate`
    AttributeCertificate,
    /// `attribute certificate of version 1`
    AttributeCertificateOfVersion1,
    /// `authenticated attribute`
    AuthenticatedAttribute,
    /// `authenticated data`
    AuthenticatedData,
    /// `authority`
    Authority,
    /// `b`
    B,
    /// `bag`
    Bag,
    /// `bags`
    Bags,
    /// `base`
    Base,
    /// `breaks`
    Breaks,
    /// `certificate`
    Certificate,
    /// `certificate of another format`
    CertificateOfAnotherFormat,
    /// `certificate of another kind`
    CertificateOfAnotherKind,
    /// `cipher`
    Cipher,
    /// `coefficient`
    Coefficient,
    /// `cofactor`
    Cofactor,
    /// `content`
    Content,
    /// `content type`
    ContentType,
    /// `contents`
    Contents,
    /// `curve`
    Curve,
    /// `date of the key`
    DateOfTheKey,
    /// `digest`
    Digest,
    /// `digest algorithm`
    DigestAlgorithm,
    /// `digested data`
    DigestedData,
    /// `encrypted content`
    EncryptedContent,
    /// `encrypted data`
    EncryptedData,
    /// `encrypted key`
    EncryptedKey,
    /// `encryption algorithm`
    EncryptionAlgorithm,
    /// `enveloped data`
    EnvelopedData,
    /// `exponent1`
    Exponent1,
    /// `exponent2`
    Exponent2,
    /// `extended certificate`
    ExtendedCertificate,
    /// `extension`
    Extension,
    /// `extension of this certificate`
    ExtensionOfThisCertificate,
    /// `extensions`
    Extensions,
    /// `failure`
    Failure,
    /// `field`
    Field,
    /// `fingerprint`
    Fingerprint,
    /// `g`
    G,
    /// `hash algorithm`
    HashAlgorithm,
    /// `hash of issuer's key`
    HashOfIssuersKey,
    /// `hash of issuer's name`
    HashOfIssuersName,
    /// `hash of responder's key`
    HashOfRespondersKey,
    /// `in order`
    InOrder,
    /// `issuer`
    Issuer,
    /// `issuer's number`
    IssuersNumber,
    /// `iterations`
    Iterations,
    /// `j`
    J,
    /// `key`
    Key,
    /// `key algorithm`
    KeyAlgorithm,
    /// `key derivation`
    KeyDerivation,
    /// `key encryption`
    KeyEncryption,
    /// `key identifier`
    KeyIdentifier,
    /// `key length`
    KeyLength,
    /// `keying material`
    KeyingMaterial,
    /// `length of a private value`
    LengthOfAPrivateValue,
    /// `list`
    List,
    /// `list of another format`
    ListOfAnotherFormat,
    /// `list of another kind`
    ListOfAnotherKind,
    /// `list of revoked certificates`
    ListOfRevokedCertificates,
    /// `MAC`
    Mac,
    /// `MAC algorithm`
    MacAlgorithm,
    /// `modulus`
    Modulus,
    /// `next update`
    NextUpdate,
    /// `nonce`
    Nonce,
    /// `not after`
    NotAfter,
    /// `not before`
    NotBefore,
    /// `order`
    Order,
    /// `originator`
    Originator,
    /// `other primes`
    OtherPrimes,
    /// `other setting`
    OtherSetting,
    /// `p`
    P,
    /// `parameters`
    Parameters,
    /// `parameters of the field`
    ParametersOfTheField,
    /// `pgenCounter`
    PgenCounter,
    /// `policy`
    Policy,
    /// `prime`
    Prime,
    /// `prime1`
    Prime1,
    /// `prime2`
    Prime2,
    /// `privateExponent`
    PrivateExponent,
    /// `privateKey`
    PrivateKey,
    /// `produced at`
    ProducedAt,
    /// `pseudorandom function`
    PseudorandomFunction,
    /// `public exponent`
    PublicExponent,
    /// `public key`
    PublicKey,
    /// `q`
    Q,
    /// `recipient`
    Recipient,
    /// `recipient of another kind`
    RecipientOfAnotherKind,
    /// `recipient with the key`
    RecipientWithTheKey,
    /// `recipients`
    Recipients,
    /// `rejected use`
    RejectedUse,
    /// `requestor`
    Requestor,
    /// `responder`
    Responder,
    /// `response`
    Response,
    /// `response type`
    ResponseType,
    /// `revoked`
    Revoked,
    /// `salt`
    Salt,
    /// `scheme`
    Scheme,
    /// `seed`
    Seed,
    /// `serial number`
    SerialNumber,
    /// `signature`
    Signature,
    /// `signature algorithm`
    SignatureAlgorithm,
    /// `signed attribute`
    SignedAttribute,
    /// `signed data`
    SignedData,
    /// `signer`
    Signer,
    /// `status`
    Status,
    /// `status text`
    StatusText,
    /// `subject`
    Subject,
    /// `subject's number`
    SubjectsNumber,
    /// `this update`
    ThisUpdate,
    /// `time`
    Time,
    /// `time stamp`
    TimeStamp,
    /// `trust settings`
    TrustSettings,
    /// `trusted use`
    TrustedUse,
    /// `unauthenticated attribute`
    UnauthenticatedAttribute,
    /// `unprotected attribute`
    UnprotectedAttribute,
    /// `unsigned attribute`
    UnsignedAttribute,
    /// `value`
    Value,
    /// `version`
    Version,
    /// `with certificate`
    WithCertificate,
}

/// The number of names.
const COUNT: usize = 125;

/// Each field name, in the order of its declaration, and its text: the label of the field, with a
/// `-` for each space.
const NAMES: [(FieldName, &str); COUNT] = [
    (FieldName::A, "a"),
    (FieldName::Accuracy, "accuracy"),
    (FieldName::Alias, "alias"),
    (FieldName::At, "at"),
    (FieldName::Attribute, "attribute"),
    (FieldName::AttributeCertificate, "attribute-certificate"),
    (
        FieldName::AttributeCertificateOfVersion1,
        "attribute-certificate-of-version-1",
    ),
    (FieldName::AuthenticatedAttribute, "authenticated-attribute"),
    (FieldName::AuthenticatedData, "authenticated-data"),
    (FieldName::Authority, "authority"),
    (FieldName::B, "b"),
    (FieldName::Bag, "bag"),
    (FieldName::Bags, "bags"),
    (FieldName::Base, "base"),
    (FieldName::Breaks, "breaks"),
    (FieldName::Certificate, "certificate"),
    (
        FieldName::CertificateOfAnotherFormat,
        "certificate-of-another-format",
    ),
    (
        FieldName::CertificateOfAnotherKind,
        "certificate-of-another-kind",
    ),
    (FieldName::Cipher, "cipher"),
    (FieldName::Coefficient, "coefficient"),
    (FieldName::Cofactor, "cofactor"),
    (FieldName::Content, "content"),
    (FieldName::ContentType, "content-type"),
    (FieldName::Contents, "contents"),
    (FieldName::Curve, "curve"),
    (FieldName::DateOfTheKey, "date-of-the-key"),
    (FieldName::Digest, "digest"),
    (FieldName::DigestAlgorithm, "digest-algorithm"),
    (FieldName::DigestedData, "digested-data"),
    (FieldName::EncryptedContent, "encrypted-content"),
    (FieldName::EncryptedData, "encrypted-data"),
    (FieldName::EncryptedKey, "encrypted-key"),
    (FieldName::EncryptionAlgorithm, "encryption-algorithm"),
    (FieldName::EnvelopedData, "enveloped-data"),
    (FieldName::Exponent1, "exponent1"),
    (FieldName::Exponent2, "exponent2"),
    (FieldName::ExtendedCertificate, "extended-certificate"),
    (FieldName::Extension, "extension"),
    (
        FieldName::ExtensionOfThisCertificate,
        "extension-of-this-certificate",
    ),
    (FieldName::Extensions, "extensions"),
    (FieldName::Failure, "failure"),
    (FieldName::Field, "field"),
    (FieldName::Fingerprint, "fingerprint"),
    (FieldName::G, "g"),
    (FieldName::HashAlgorithm, "hash-algorithm"),
    (FieldName::HashOfIssuersKey, "hash-of-issuer's-key"),
    (FieldName::HashOfIssuersName, "hash-of-issuer's-name"),
    (FieldName::HashOfRespondersKey, "hash-of-responder's-key"),
    (FieldName::InOrder, "in-order"),
    (FieldName::Issuer, "issuer"),
    (FieldName::IssuersNumber, "issuer's-number"),
    (FieldName::Iterations, "iterations"),
    (FieldName::J, "j"),
    (FieldName::Key, "key"),
    (FieldName::KeyAlgorithm, "key-algorithm"),
    (FieldName::KeyDerivation, "key-derivation"),
    (FieldName::KeyEncryption, "key-encryption"),
    (FieldName::KeyIdentifier, "key-identifier"),
    (FieldName::KeyLength, "key-length"),
    (FieldName::KeyingMaterial, "keying-material"),
    (
        FieldName::LengthOfAPrivateValue,
        "length-of-a-private-value",
    ),
    (FieldName::List, "list"),
    (FieldName::ListOfAnotherFormat, "list-of-another-format"),
    (FieldName::ListOfAnotherKind, "list-of-another-kind"),
    (
        FieldName::ListOfRevokedCertificates,
        "list-of-revoked-certificates",
    ),
    (FieldName::Mac, "MAC"),
    (FieldName::MacAlgorithm, "MAC-algorithm"),
    (FieldName::Modulus, "modulus"),
    (FieldName::NextUpdate, "next-update"),
    (FieldName::Nonce, "nonce"),
    (FieldName::NotAfter, "not-after"),
    (FieldName::NotBefore, "not-before"),
    (FieldName::Order, "order"),
    (FieldName::Originator, "originator"),
    (FieldName::OtherPrimes, "other-primes"),
    (FieldName::OtherSetting, "other-setting"),
    (FieldName::P, "p"),
    (FieldName::Parameters, "parameters"),
    (FieldName::ParametersOfTheField, "parameters-of-the-field"),
    (FieldName::PgenCounter, "pgenCounter"),
    (FieldName::Policy, "policy"),
    (FieldName::Prime, "prime"),
    (FieldName::Prime1, "prime1"),
    (FieldName::Prime2, "prime2"),
    (FieldName::PrivateExponent, "privateExponent"),
    (FieldName::PrivateKey, "privateKey"),
    (FieldName::ProducedAt, "produced-at"),
    (FieldName::PseudorandomFunction, "pseudorandom-function"),
    (FieldName::PublicExponent, "public-exponent"),
    (FieldName::PublicKey, "public-key"),
    (FieldName::Q, "q"),
    (FieldName::Recipient, "recipient"),
    (
        FieldName::RecipientOfAnotherKind,
        "recipient-of-another-kind",
    ),
    (FieldName::RecipientWithTheKey, "recipient-with-the-key"),
    (FieldName::Recipients, "recipients"),
    (FieldName::RejectedUse, "rejected-use"),
    (FieldName::Requestor, "requestor"),
    (FieldName::Responder, "responder"),
    (FieldName::Response, "response"),
    (FieldName::ResponseType, "response-type"),
    (FieldName::Revoked, "revoked"),
    (FieldName::Salt, "salt"),
    (FieldName::Scheme, "scheme"),
    (FieldName::Seed, "seed"),
    (FieldName::SerialNumber, "serial-number"),
    (FieldName::Signature, "signature"),
    (FieldName::SignatureAlgorithm, "signature-algorithm"),
    (FieldName::SignedAttribute, "signed-attribute"),
    (FieldName::SignedData, "signed-data"),
    (FieldName::Signer, "signer"),
    (FieldName::Status, "status"),
    (FieldName::StatusText, "status-text"),
    (FieldName::Subject, "subject"),
    (FieldName::SubjectsNumber, "subject's-number"),
    (FieldName::ThisUpdate, "this-update"),
    (FieldName::Time, "time"),
    (FieldName::TimeStamp, "time-stamp"),
    (FieldName::TrustSettings, "trust-settings"),
    (FieldName::TrustedUse, "trusted-use"),
    (
        FieldName::UnauthenticatedAttribute,
        "unauthenticated-attribute",
    ),
    (FieldName::UnprotectedAttribute, "unprotected-attribute"),
    (FieldName::UnsignedAttribute, "unsigned-attribute"),
    (FieldName::Value, "value"),
    (FieldName::Version, "version"),
    (FieldName::WithCertificate, "with-certificate"),
];

/// Returns the names in a table, in its order.
fn names_in(
    alloc: Global,
    table: &[(FieldName, &'static str)],
) -> Result<Vec<&'static str>, AllocError> {
    let mut names = Vec::new(alloc);
    for (_, name) in table {
        names.push(*name)?;
    }
    Ok(names)
}

/// Returns the field with this name in a table, if there is one.
fn field_in(table: &[(FieldName, &'static str)], name: &str) -> Option<FieldName> {
    for (field, own) in table {
        if *own == name {
            return Some(*field);
        }
    }
    None
}

impl FieldName {
    /// Returns the names of all fields.
    pub fn names(alloc: Global) -> Result<Vec<&'static str>, AllocError> {
        names_in(alloc, &NAMES)
    }

    /// Returns the field with this name, if there is one: `SignatureAlgorithm` for
    /// `signature-algorithm`.
    pub fn with_name(name: &str) -> Option<FieldName> {
        field_in(&NAMES, name)
    }

    /// Returns the text of the name: `signature-algorithm` for `SignatureAlgorithm`.
    pub fn name(self) -> &'static str {
        NAMES[self as usize].1
    }

    /// Adds the label of the field: `signature algorithm` for `SignatureAlgorithm`.
    pub fn push_label(self, out: &mut String) -> Result<(), AllocError> {
        for character in self.name().chars() {
            out.push(if character == '-' { ' ' } else { character })?;
        }
        Ok(())
    }
}
