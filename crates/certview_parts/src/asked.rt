//! Requests about a message besides its fields.

use der_asn1_types::DateTime;

/// Requests about each message besides its fields. The rules and the moment apply to certificates
/// and to lists of revoked certificates.
#[derive(Clone, Copy, Debug, PartialEq, Eq)]
pub struct Asked {
    /// Whether to show the rules of RFC 5280 that it breaks.
    pub has_rules: bool,
    /// Whether to show the SHA-256 of its octets, for any message without a secret.
    pub has_fingerprint: bool,
    /// The moment at which it should be valid.
    pub moment: Option<DateTime>,
}

impl Asked {
    /// Returns no requests.
    pub fn nothing() -> Asked {
        Asked {
            has_rules: false,
            has_fingerprint: false,
            moment: None,
        }
    }
}
