//! Object identifiers in PKCS-10.
//!
//! Made by tools/asn1 from request.asn1.

/// ```text
/// pkcs-9-at-challengePassword  OBJECT IDENTIFIER ::= { pkcs-9 7 }
/// ```
///
/// 1.2.840.113549.1.9.7, as contents octets.
pub const PKCS_9_AT_CHALLENGE_PASSWORD: [u8; 9] = [
    0x2a, 0x86, 0x48, 0x86, 0xf7, 0x0d, 0x01, 0x09, 0x07,
];

/// ```text
/// pkcs-9-at-extensionRequest   OBJECT IDENTIFIER ::= { pkcs-9 14 }
/// ```
///
/// 1.2.840.113549.1.9.14, as contents octets.
pub const PKCS_9_AT_EXTENSION_REQUEST: [u8; 9] = [
    0x2a, 0x86, 0x48, 0x86, 0xf7, 0x0d, 0x01, 0x09, 0x0e,
];
