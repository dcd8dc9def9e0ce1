//! Object identifiers in CmsSigned.
//!
//! Made by tools/asn1 from cms.asn1.

/// ```text
/// pkcs-7  OBJECT IDENTIFIER ::= { iso(1) member-body(2) us(840) rsadsi(113549) pkcs(1) 7 }
/// ```
///
/// 1.2.840.113549.1.7, as contents octets.
pub const PKCS_7: [u8; 8] = [0x2a, 0x86, 0x48, 0x86, 0xf7, 0x0d, 0x01, 0x07];

/// ```text
/// id-data           OBJECT IDENTIFIER ::= { pkcs-7 1 }
/// ```
///
/// 1.2.840.113549.1.7.1, as contents octets.
pub const ID_DATA: [u8; 9] = [0x2a, 0x86, 0x48, 0x86, 0xf7, 0x0d, 0x01, 0x07, 0x01];

/// ```text
/// id-signedData     OBJECT IDENTIFIER ::= { pkcs-7 2 }
/// ```
///
/// 1.2.840.113549.1.7.2, as contents octets.
pub const ID_SIGNED_DATA: [u8; 9] = [0x2a, 0x86, 0x48, 0x86, 0xf7, 0x0d, 0x01, 0x07, 0x02];

/// ```text
/// id-digestedData   OBJECT IDENTIFIER ::= { pkcs-7 5 }
/// ```
///
/// 1.2.840.113549.1.7.5, as contents octets.
pub const ID_DIGESTED_DATA: [u8; 9] = [0x2a, 0x86, 0x48, 0x86, 0xf7, 0x0d, 0x01, 0x07, 0x05];

/// ```text
/// id-encryptedData  OBJECT IDENTIFIER ::= { pkcs-7 6 }
/// ```
///
/// 1.2.840.113549.1.7.6, as contents octets.
pub const ID_ENCRYPTED_DATA: [u8; 9] = [0x2a, 0x86, 0x48, 0x86, 0xf7, 0x0d, 0x01, 0x07, 0x06];

/// ```text
/// id-ct-contentInfo  OBJECT IDENTIFIER ::= { pkcs-9 16 1 6 }
/// ```
///
/// 1.2.840.113549.1.9.16.1.6, as contents octets.
pub const ID_CT_CONTENT_INFO: [u8; 11] = [
    0x2a, 0x86, 0x48, 0x86, 0xf7, 0x0d, 0x01, 0x09, 0x10, 0x01, 0x06,
];

/// ```text
/// id-contentType       OBJECT IDENTIFIER ::= { pkcs-9 3 }
/// ```
///
/// 1.2.840.113549.1.9.3, as contents octets.
pub const ID_CONTENT_TYPE: [u8; 9] = [0x2a, 0x86, 0x48, 0x86, 0xf7, 0x0d, 0x01, 0x09, 0x03];

/// ```text
/// id-messageDigest     OBJECT IDENTIFIER ::= { pkcs-9 4 }
/// ```
///
/// 1.2.840.113549.1.9.4, as contents octets.
pub const ID_MESSAGE_DIGEST: [u8; 9] = [0x2a, 0x86, 0x48, 0x86, 0xf7, 0x0d, 0x01, 0x09, 0x04];

/// ```text
/// id-signingTime       OBJECT IDENTIFIER ::= { pkcs-9 5 }
/// ```
///
/// 1.2.840.113549.1.9.5, as contents octets.
pub const ID_SIGNING_TIME: [u8; 9] = [0x2a, 0x86, 0x48, 0x86, 0xf7, 0x0d, 0x01, 0x09, 0x05];

/// ```text
/// id-countersignature  OBJECT IDENTIFIER ::= { pkcs-9 6 }
/// ```
///
/// 1.2.840.113549.1.9.6, as contents octets.
pub const ID_COUNTERSIGNATURE: [u8; 9] = [0x2a, 0x86, 0x48, 0x86, 0xf7, 0x0d, 0x01, 0x09, 0x06];
