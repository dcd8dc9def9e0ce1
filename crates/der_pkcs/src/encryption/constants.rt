//! Object identifiers in PkcsEncryption.
//!
//! Made by tools/asn1 from encryption.asn1.

/// ```text
/// rsadsi  OBJECT IDENTIFIER ::= { iso(1) member-body(2) us(840) 113549 }
/// ```
///
/// 1.2.840.113549, as contents octets.
pub const RSADSI: [u8; 6] = [0x2a, 0x86, 0x48, 0x86, 0xf7, 0x0d];

/// ```text
/// pkcs-5  OBJECT IDENTIFIER ::= { rsadsi pkcs(1) 5 }
/// ```
///
/// 1.2.840.113549.1.5, as contents octets.
pub const PKCS_5: [u8; 8] = [0x2a, 0x86, 0x48, 0x86, 0xf7, 0x0d, 0x01, 0x05];

/// ```text
/// pbeWithMD5AndDES-CBC   OBJECT IDENTIFIER ::= { pkcs-5 3 }
/// ```
///
/// 1.2.840.113549.1.5.3, as contents octets.
pub const PBE_WITH_MD5_AND_DES_CBC: [u8; 9] = [
    0x2a, 0x86, 0x48, 0x86, 0xf7, 0x0d, 0x01, 0x05, 0x03,
];

/// ```text
/// pbeWithSHA1AndDES-CBC  OBJECT IDENTIFIER ::= { pkcs-5 10 }
/// ```
///
/// 1.2.840.113549.1.5.10, as contents octets.
pub const PBE_WITH_SHA1_AND_DES_CBC: [u8; 9] = [
    0x2a, 0x86, 0x48, 0x86, 0xf7, 0x0d, 0x01, 0x05, 0x0a,
];

/// ```text
/// id-PBKDF2  OBJECT IDENTIFIER ::= { pkcs-5 12 }
/// ```
///
/// 1.2.840.113549.1.5.12, as contents octets.
pub const ID_PBKDF2: [u8; 9] = [0x2a, 0x86, 0x48, 0x86, 0xf7, 0x0d, 0x01, 0x05, 0x0c];

/// ```text
/// id-PBES2   OBJECT IDENTIFIER ::= { pkcs-5 13 }
/// ```
///
/// 1.2.840.113549.1.5.13, as contents octets.
pub const ID_PBES2: [u8; 9] = [0x2a, 0x86, 0x48, 0x86, 0xf7, 0x0d, 0x01, 0x05, 0x0d];

/// ```text
/// id-PBMAC1  OBJECT IDENTIFIER ::= { pkcs-5 14 }
/// ```
///
/// 1.2.840.113549.1.5.14, as contents octets.
pub const ID_PBMAC1: [u8; 9] = [0x2a, 0x86, 0x48, 0x86, 0xf7, 0x0d, 0x01, 0x05, 0x0e];

/// ```text
/// id-hmacWithSHA1    OBJECT IDENTIFIER ::= { rsadsi 2 7 }
/// ```
///
/// 1.2.840.113549.2.7, as contents octets.
pub const ID_HMAC_WITH_SHA1: [u8; 8] = [0x2a, 0x86, 0x48, 0x86, 0xf7, 0x0d, 0x02, 0x07];

/// ```text
/// id-hmacWithSHA224  OBJECT IDENTIFIER ::= { rsadsi 2 8 }
/// ```
///
/// 1.2.840.113549.2.8, as contents octets.
pub const ID_HMAC_WITH_SHA224: [u8; 8] = [0x2a, 0x86, 0x48, 0x86, 0xf7, 0x0d, 0x02, 0x08];

/// ```text
/// id-hmacWithSHA256  OBJECT IDENTIFIER ::= { rsadsi 2 9 }
/// ```
///
/// 1.2.840.113549.2.9, as contents octets.
pub const ID_HMAC_WITH_SHA256: [u8; 8] = [0x2a, 0x86, 0x48, 0x86, 0xf7, 0x0d, 0x02, 0x09];

/// ```text
/// id-hmacWithSHA384  OBJECT IDENTIFIER ::= { rsadsi 2 10 }
/// ```
///
/// 1.2.840.113549.2.10, as contents octets.
pub const ID_HMAC_WITH_SHA384: [u8; 8] = [0x2a, 0x86, 0x48, 0x86, 0xf7, 0x0d, 0x02, 0x0a];

/// ```text
/// id-hmacWithSHA512  OBJECT IDENTIFIER ::= { rsadsi 2 11 }
/// ```
///
/// 1.2.840.113549.2.11, as contents octets.
pub const ID_HMAC_WITH_SHA512: [u8; 8] = [0x2a, 0x86, 0x48, 0x86, 0xf7, 0x0d, 0x02, 0x0b];

/// ```text
/// des-EDE3-CBC  OBJECT IDENTIFIER ::= { rsadsi 3 7 }
/// ```
///
/// 1.2.840.113549.3.7, as contents octets.
pub const DES_EDE3_CBC: [u8; 8] = [0x2a, 0x86, 0x48, 0x86, 0xf7, 0x0d, 0x03, 0x07];

/// ```text
/// aes  OBJECT IDENTIFIER ::=
///      { joint-iso-itu-t(2) country(16) us(840) organization(1) gov(101) csor(3) nistAlgorithms(4) 1 }
/// ```
///
/// 2.16.840.1.101.3.4.1, as contents octets.
pub const AES: [u8; 8] = [0x60, 0x86, 0x48, 0x01, 0x65, 0x03, 0x04, 0x01];

/// ```text
/// aes128-CBC-PAD  OBJECT IDENTIFIER ::= { aes 2 }
/// ```
///
/// 2.16.840.1.101.3.4.1.2, as contents octets.
pub const AES128_CBC_PAD: [u8; 9] = [0x60, 0x86, 0x48, 0x01, 0x65, 0x03, 0x04, 0x01, 0x02];

/// ```text
/// aes192-CBC-PAD  OBJECT IDENTIFIER ::= { aes 22 }
/// ```
///
/// 2.16.840.1.101.3.4.1.22, as contents octets.
pub const AES192_CBC_PAD: [u8; 9] = [0x60, 0x86, 0x48, 0x01, 0x65, 0x03, 0x04, 0x01, 0x16];

/// ```text
/// aes256-CBC-PAD  OBJECT IDENTIFIER ::= { aes 42 }
/// ```
///
/// 2.16.840.1.101.3.4.1.42, as contents octets.
pub const AES256_CBC_PAD: [u8; 9] = [0x60, 0x86, 0x48, 0x01, 0x65, 0x03, 0x04, 0x01, 0x2a];
