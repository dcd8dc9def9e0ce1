//! Object identifiers in ExtendedSecurityServices-2006.
//!
//! Made by tools/asn1 from ess.asn1.

/// ```text
/// id-aa  OBJECT IDENTIFIER ::= { pkcs-9 16 2 }
/// ```
///
/// 1.2.840.113549.1.9.16.2, as contents octets.
pub const ID_AA: [u8; 10] = [0x2a, 0x86, 0x48, 0x86, 0xf7, 0x0d, 0x01, 0x09, 0x10, 0x02];

/// ```text
/// id-aa-signingCertificate    OBJECT IDENTIFIER ::= { id-aa 12 }
/// ```
///
/// 1.2.840.113549.1.9.16.2.12, as contents octets.
pub const ID_AA_SIGNING_CERTIFICATE: [u8; 11] = [
    0x2a, 0x86, 0x48, 0x86, 0xf7, 0x0d, 0x01, 0x09, 0x10, 0x02, 0x0c,
];

/// ```text
/// id-aa-signingCertificateV2  OBJECT IDENTIFIER ::= { id-aa 47 }
/// ```
///
/// 1.2.840.113549.1.9.16.2.47, as contents octets.
pub const ID_AA_SIGNING_CERTIFICATE_V2: [u8; 11] = [
    0x2a, 0x86, 0x48, 0x86, 0xf7, 0x0d, 0x01, 0x09, 0x10, 0x02, 0x2f,
];
