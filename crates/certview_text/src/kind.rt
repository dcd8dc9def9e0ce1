//! The kind of message in octets.

ghost use Rattle.std.specs.Prelude.{◌≡◌};
ghost use Rattle.certview_text.specs.Kinds.{has_tag, has_time_tag, signed_kind, without, has_requests, has_status, sequence_kind, structure_kind, primes_kind, numbers_kind, key_kind, kind_of_fields, kind_of, begins_message, fields_of, fields_within};

use certview_parts::values::{after_header, after_value, contents};

/// The kinds of messages that are shown.
#[derive(Clone, Copy, Debug, PartialEq, Eq)]
pub enum Kind {
    /// A Certificate (RFC 5280 section 4.1).
    Certificate,
    /// A CertificateList (RFC 5280 section 5.1).
    RevocationList,
    /// A SubjectPublicKeyInfo (RFC 5280 section 4.1.2.7).
    PublicKey,
    /// A PrivateKeyInfo (RFC 5958 section 2, where it is a OneAsymmetricKey).
    PrivateKey,
    /// An RSAPrivateKey (RFC 8017 appendix A.1.2).
    RsaPrivateKey,
    /// An RSAPublicKey (RFC 8017 appendix A.1.1).
    RsaPublicKey,
    /// An ECPrivateKey (RFC 5915 section 3).
    EcPrivateKey,
    /// A DSA private key, as OpenSSL writes it: version, p, q, g, the public key and the private
    /// key.
    DsaPrivateKey,
    /// A CertificationRequest (RFC 2986 section 4.2).
    CertificationRequest,
    /// An EncryptedPrivateKeyInfo (RFC 5958 section 3).
    EncryptedPrivateKey,
    /// An OCSPRequest (RFC 6960 section 4.1).
    OcspRequest,
    /// An OCSPResponse (RFC 6960 section 4.2).
    OcspResponse,
    /// A ContentInfo of CMS (RFC 5652 section 3).
    Cms,
    /// A TimeStampReq (RFC 3161 section 2.4.1).
    TimeStampQuery,
    /// A TimeStampResp (RFC 3161 section 2.4.2).
    TimeStampReply,
    /// A PFX of PKCS #12 (RFC 7292 section 4).
    Pkcs12,
    /// ECParameters (RFC 5480 section 2.1.1; SEC 1, version 2.0, section C.2).
    EcParameters,
    /// A Dss-Parms (RFC 3279 section 2.3.2).
    DsaParameters,
    /// A DHParameter (PKCS #3 section 9).
    DhParameters,
    /// A DomainParameters (RFC 3279 section 2.3.3).
    X942Parameters,
}

impl Kind {
    /// Returns the name of the message for people.
    pub fn name(self) -> &'static str {
        match self {
            Kind::Certificate => "certificate",
            Kind::RevocationList => "list of revoked certificates",
            Kind::PublicKey => "public key",
            Kind::PrivateKey => "private key",
            Kind::RsaPrivateKey => "private key of RSA",
            Kind::RsaPublicKey => "public key of RSA",
            Kind::EcPrivateKey => "private key of an elliptic curve",
            Kind::DsaPrivateKey => "private key of DSA",
            Kind::CertificationRequest => "certification request",
            Kind::EncryptedPrivateKey => "encrypted private key",
            Kind::OcspRequest => "OCSP request",
            Kind::OcspResponse => "OCSP response",
            Kind::Cms => "CMS message",
            Kind::TimeStampQuery => "time stamp query",
            Kind::TimeStampReply => "time stamp reply",
            Kind::Pkcs12 => "PKCS #12 file",
            Kind::EcParameters => "parameters of an elliptic curve",
            Kind::DsaParameters => "parameters of DSA",
            Kind::DhParameters => "parameters of Diffie-Hellman",
            Kind::X942Parameters => "parameters of Diffie-Hellman (X9.42)",
        }
    }

    /// Returns whether a message of this kind contains a secret.
    pub fn is_secret(self) -> bool {
        matches!(
            self,
            Kind::PrivateKey
                | Kind::RsaPrivateKey
                | Kind::EcPrivateKey
                | Kind::DsaPrivateKey
                | Kind::EncryptedPrivateKey
                | Kind::Pkcs12
        )
    }
}

/// Returns the kind of message in octets, by the tags of its fields. Octets of no kind get one
/// too, and its grammar then refuses them. The tags also give the kind of messages in BER, and
/// the grammar refuses those as well.
pub fn kind_of(octets: &[u8]) -> Kind
    ensures { result ≡ kind_of octets.now }
{
    if has_tag(octets, 0x06) || has_tag(octets, 0x05) {
        return Kind::EcParameters;
    }
    kind_of_fields(fields_of(octets))
}

/// Returns whether octets begin as a message: with a SEQUENCE, or as ECParameters that are a name
/// or NULL.
pub fn begins_message(octets: &[u8]) -> bool
    ensures { result ≡ begins_message octets.now }
{
    has_tag(octets, 0x30) || has_tag(octets, 0x06) || has_tag(octets, 0x05)
}

/// Returns the kind of a message by the fields of its SEQUENCE.
fn kind_of_fields(fields: &[u8]) -> Kind
    ensures { result ≡ kind_of_fields fields.now }
{
    if has_tag(fields, 0x02) {
        key_kind(after_value(fields))
    } else if has_tag(fields, 0x06) {
        Kind::Cms
    } else if has_tag(fields, 0x0a) {
        Kind::OcspResponse
    } else {
        sequence_kind(fields_within(fields), after_value(fields))
    }
}

/// Returns the kind of a message by the fields after a first INTEGER.
fn key_kind(others: &[u8]) -> Kind
    ensures { result ≡ key_kind others.now }
{
    if has_tag(others, 0x30) {
        return structure_kind(others);
    }
    if has_tag(others, 0x04) {
        return Kind::EcPrivateKey;
    }
    let third = after_value(others);
    if has_tag(third, 0x02) {
        numbers_kind(after_value(third))
    } else {
        Kind::RsaPublicKey
    }
}

/// Returns the kind of a message by the fields after a first INTEGER, if a SEQUENCE is the next
/// one.
fn structure_kind(others: &[u8]) -> Kind
    ensures { result ≡ structure_kind others.now }
{
    let (third, fields) = (after_value(others), fields_within(others));
    if has_tag(third, 0x04) {
        Kind::PrivateKey
    } else if has_tag(fields, 0x30) {
        Kind::TimeStampQuery
    } else if has_tag(after_value(fields), 0xa0) {
        Kind::Pkcs12
    } else if has_tag(third, 0x30) {
        Kind::EcParameters
    } else {
        Kind::PrivateKey
    }
}

/// Returns the kind of a message by the fields after three INTEGERs.
fn numbers_kind(others: &[u8]) -> Kind
    ensures { result ≡ numbers_kind others.now }
{
    if has_tag(others, 0x02) {
        let fifth = after_value(others);
        if has_tag(fifth, 0x02) {
            primes_kind(after_value(fifth))
        } else {
            Kind::X942Parameters
        }
    } else if has_tag(others, 0x30) {
        Kind::X942Parameters
    } else {
        Kind::DsaParameters
    }
}

/// Returns the kind of a message by the fields after five INTEGERs.
fn primes_kind(others: &[u8]) -> Kind
    ensures { result ≡ primes_kind others.now }
{
    if has_tag(others, 0x02) && !has_tag(after_value(others), 0x02) {
        Kind::DsaPrivateKey
    } else {
        Kind::RsaPrivateKey
    }
}

/// Returns the kind of a message by the fields of a first SEQUENCE and the fields after it.
fn sequence_kind(fields: &[u8], others: &[u8]) -> Kind
    ensures { result ≡ sequence_kind fields.now others.now }
{
    if has_tag(others, 0x03) {
        Kind::PublicKey
    } else if has_tag(others, 0x04) {
        Kind::EncryptedPrivateKey
    } else if has_status(fields) {
        Kind::TimeStampReply
    } else if has_requests(fields) {
        Kind::OcspRequest
    } else {
        signed_kind(fields)
    }
}

/// Returns the kind of a message by its signed fields.
fn signed_kind(fields: &[u8]) -> Kind
    ensures { result ≡ signed_kind fields.now }
{
    let third = after_value(after_value(fields));
    let fourth = after_value(third);
    if has_time_tag(third) || has_time_tag(fourth) {
        Kind::RevocationList
    } else if has_tag(fourth, 0xa0) {
        Kind::CertificationRequest
    } else {
        Kind::Certificate
    }
}

/// Returns whether the fields are those of a PKIStatusInfo.
fn has_status(fields: &[u8]) -> bool
    ensures { result ≡ has_status fields.now }
{
    has_tag(fields, 0x02) && !has_tag(after_value(after_value(fields)), 0x30)
}

/// Returns whether the fields are those of a TBSRequest.
fn has_requests(fields: &[u8]) -> bool
    ensures { result ≡ has_requests fields.now }
{
    let requests = without(without(fields, 0xa0), 0xa1);
    has_tag(requests, 0x30) && !has_tag(contents(requests), 0x06)
}

/// Returns the octets after the first value if it has this tag, otherwise all of them.
fn without(octets: &[u8], tag: u8) -> &[u8]
    ensures { result.now ≡ without tag octets.now }
{
    if has_tag(octets, tag) {
        after_value(octets)
    } else {
        octets
    }
}

/// Returns the octets after the first header. Its length may be indefinite (X.690 8.1.3.6).
fn fields_of(octets: &[u8]) -> &[u8]
    ensures { result.now ≡ fields_of octets.now }
{
    match octets {
        [_, length, fields @ ..] => {
            if *length == 0x80 {
                fields
            } else {
                after_header(octets)
            }
        }
        _ => after_header(octets),
    }
}

/// Returns the contents octets of the first value. If its length is indefinite, returns all
/// octets after the header.
fn fields_within(octets: &[u8]) -> &[u8]
    ensures { result.now ≡ fields_within octets.now }
{
    match octets {
        [_, length, fields @ ..] => {
            if *length == 0x80 {
                fields
            } else {
                contents(octets)
            }
        }
        _ => contents(octets),
    }
}

/// Returns whether the first value is a UTCTime or a GeneralizedTime.
pub fn has_time_tag(octets: &[u8]) -> bool
    ensures { result ≡ has_time_tag octets.now }
{
    has_tag(octets, 0x17) || has_tag(octets, 0x18)
}

/// Returns whether the first value has this identifier octet.
pub fn has_tag(octets: &[u8], tag: u8) -> bool
    ensures { result ≡ has_tag tag octets.now }
{
    match octets {
        [octet, ..] => *octet == tag,
        [] => false,
    }
}
