//! Object identifiers in PkixAlgorithms.
//!
//! Made by tools/asn1 from algorithm.asn1.

/// ```text
/// pkcs-1  OBJECT IDENTIFIER ::= { rsadsi pkcs(1) 1 }
/// ```
///
/// 1.2.840.113549.1.1, as contents octets.
pub const PKCS_1: [u8; 8] = [0x2a, 0x86, 0x48, 0x86, 0xf7, 0x0d, 0x01, 0x01];

/// ```text
/// rsaEncryption            OBJECT IDENTIFIER ::= { pkcs-1 1 }
/// ```
///
/// 1.2.840.113549.1.1.1, as contents octets.
pub const RSA_ENCRYPTION: [u8; 9] = [0x2a, 0x86, 0x48, 0x86, 0xf7, 0x0d, 0x01, 0x01, 0x01];

/// ```text
/// id-RSAES-OAEP            OBJECT IDENTIFIER ::= { pkcs-1 7 }
/// ```
///
/// 1.2.840.113549.1.1.7, as contents octets.
pub const ID_RSAES_OAEP: [u8; 9] = [0x2a, 0x86, 0x48, 0x86, 0xf7, 0x0d, 0x01, 0x01, 0x07];

/// ```text
/// id-mgf1                  OBJECT IDENTIFIER ::= { pkcs-1 8 }
/// ```
///
/// 1.2.840.113549.1.1.8, as contents octets.
pub const ID_MGF1: [u8; 9] = [0x2a, 0x86, 0x48, 0x86, 0xf7, 0x0d, 0x01, 0x01, 0x08];

/// ```text
/// id-pSpecified            OBJECT IDENTIFIER ::= { pkcs-1 9 }
/// ```
///
/// 1.2.840.113549.1.1.9, as contents octets.
pub const ID_P_SPECIFIED: [u8; 9] = [0x2a, 0x86, 0x48, 0x86, 0xf7, 0x0d, 0x01, 0x01, 0x09];

/// ```text
/// id-RSASSA-PSS            OBJECT IDENTIFIER ::= { pkcs-1 10 }
/// ```
///
/// 1.2.840.113549.1.1.10, as contents octets.
pub const ID_RSASSA_PSS: [u8; 9] = [0x2a, 0x86, 0x48, 0x86, 0xf7, 0x0d, 0x01, 0x01, 0x0a];

/// ```text
/// sha256WithRSAEncryption  OBJECT IDENTIFIER ::= { pkcs-1 11 }
/// ```
///
/// 1.2.840.113549.1.1.11, as contents octets.
pub const SHA256_WITH_RSA_ENCRYPTION: [u8; 9] = [
    0x2a, 0x86, 0x48, 0x86, 0xf7, 0x0d, 0x01, 0x01, 0x0b,
];

/// ```text
/// sha384WithRSAEncryption  OBJECT IDENTIFIER ::= { pkcs-1 12 }
/// ```
///
/// 1.2.840.113549.1.1.12, as contents octets.
pub const SHA384_WITH_RSA_ENCRYPTION: [u8; 9] = [
    0x2a, 0x86, 0x48, 0x86, 0xf7, 0x0d, 0x01, 0x01, 0x0c,
];

/// ```text
/// sha512WithRSAEncryption  OBJECT IDENTIFIER ::= { pkcs-1 13 }
/// ```
///
/// 1.2.840.113549.1.1.13, as contents octets.
pub const SHA512_WITH_RSA_ENCRYPTION: [u8; 9] = [
    0x2a, 0x86, 0x48, 0x86, 0xf7, 0x0d, 0x01, 0x01, 0x0d,
];

/// ```text
/// id-sha1  OBJECT IDENTIFIER ::=
///      { iso(1) identified-organization(3) oiw(14) secsig(3) algorithms(2) 26 }
/// ```
///
/// 1.3.14.3.2.26, as contents octets.
pub const ID_SHA1: [u8; 5] = [0x2b, 0x0e, 0x03, 0x02, 0x1a];

/// ```text
/// hashalgs  OBJECT IDENTIFIER ::=
///      { joint-iso-itu-t(2) country(16) us(840) organization(1) gov(101) csor(3) nistAlgorithms(4) 2 }
/// ```
///
/// 2.16.840.1.101.3.4.2, as contents octets.
pub const HASHALGS: [u8; 8] = [0x60, 0x86, 0x48, 0x01, 0x65, 0x03, 0x04, 0x02];

/// ```text
/// id-sha256  OBJECT IDENTIFIER ::= { hashalgs 1 }
/// ```
///
/// 2.16.840.1.101.3.4.2.1, as contents octets.
pub const ID_SHA256: [u8; 9] = [0x60, 0x86, 0x48, 0x01, 0x65, 0x03, 0x04, 0x02, 0x01];

/// ```text
/// id-sha384  OBJECT IDENTIFIER ::= { hashalgs 2 }
/// ```
///
/// 2.16.840.1.101.3.4.2.2, as contents octets.
pub const ID_SHA384: [u8; 9] = [0x60, 0x86, 0x48, 0x01, 0x65, 0x03, 0x04, 0x02, 0x02];

/// ```text
/// id-sha512  OBJECT IDENTIFIER ::= { hashalgs 3 }
/// ```
///
/// 2.16.840.1.101.3.4.2.3, as contents octets.
pub const ID_SHA512: [u8; 9] = [0x60, 0x86, 0x48, 0x01, 0x65, 0x03, 0x04, 0x02, 0x03];

/// ```text
/// id-dsa            OBJECT IDENTIFIER ::= { iso(1) member-body(2) us(840) x9-57(10040) x9cm(4) 1 }
/// ```
///
/// 1.2.840.10040.4.1, as contents octets.
pub const ID_DSA: [u8; 7] = [0x2a, 0x86, 0x48, 0xce, 0x38, 0x04, 0x01];

/// ```text
/// dhpublicnumber    OBJECT IDENTIFIER ::= { iso(1) member-body(2) us(840) ansi-x942(10046) number-type(2) 1 }
/// ```
///
/// 1.2.840.10046.2.1, as contents octets.
pub const DHPUBLICNUMBER: [u8; 7] = [0x2a, 0x86, 0x48, 0xce, 0x3e, 0x02, 0x01];

/// ```text
/// dhKeyAgreement    OBJECT IDENTIFIER ::= { rsadsi pkcs(1) 3 1 }
/// ```
///
/// 1.2.840.113549.1.3.1, as contents octets.
pub const DH_KEY_AGREEMENT: [u8; 9] = [0x2a, 0x86, 0x48, 0x86, 0xf7, 0x0d, 0x01, 0x03, 0x01];

/// ```text
/// ansi-X9-62  OBJECT IDENTIFIER ::= { iso(1) member-body(2) us(840) 10045 }
/// ```
///
/// 1.2.840.10045, as contents octets.
pub const ANSI_X9_62: [u8; 5] = [0x2a, 0x86, 0x48, 0xce, 0x3d];

/// ```text
/// id-ecPublicKey     OBJECT IDENTIFIER ::= { ansi-X9-62 2 1 }
/// ```
///
/// 1.2.840.10045.2.1, as contents octets.
pub const ID_EC_PUBLIC_KEY: [u8; 7] = [0x2a, 0x86, 0x48, 0xce, 0x3d, 0x02, 0x01];

/// ```text
/// ecdsa-with-SHA256  OBJECT IDENTIFIER ::= { ansi-X9-62 4 3 2 }
/// ```
///
/// 1.2.840.10045.4.3.2, as contents octets.
pub const ECDSA_WITH_SHA256: [u8; 8] = [0x2a, 0x86, 0x48, 0xce, 0x3d, 0x04, 0x03, 0x02];

/// ```text
/// ecdsa-with-SHA384  OBJECT IDENTIFIER ::= { ansi-X9-62 4 3 3 }
/// ```
///
/// 1.2.840.10045.4.3.3, as contents octets.
pub const ECDSA_WITH_SHA384: [u8; 8] = [0x2a, 0x86, 0x48, 0xce, 0x3d, 0x04, 0x03, 0x03];

/// ```text
/// ecdsa-with-SHA512  OBJECT IDENTIFIER ::= { ansi-X9-62 4 3 4 }
/// ```
///
/// 1.2.840.10045.4.3.4, as contents octets.
pub const ECDSA_WITH_SHA512: [u8; 8] = [0x2a, 0x86, 0x48, 0xce, 0x3d, 0x04, 0x03, 0x04];

/// ```text
/// certicom-curve  OBJECT IDENTIFIER ::= { iso(1) identified-organization(3) certicom(132) 0 }
/// ```
///
/// 1.3.132.0, as contents octets.
pub const CERTICOM_CURVE: [u8; 4] = [0x2b, 0x81, 0x04, 0x00];

/// ```text
/// secp192r1  OBJECT IDENTIFIER ::= { ansi-X9-62 3 1 1 }
/// ```
///
/// 1.2.840.10045.3.1.1, as contents octets.
pub const SECP192R1: [u8; 8] = [0x2a, 0x86, 0x48, 0xce, 0x3d, 0x03, 0x01, 0x01];

/// ```text
/// sect163k1  OBJECT IDENTIFIER ::= { certicom-curve 1 }
/// ```
///
/// 1.3.132.0.1, as contents octets.
pub const SECT163K1: [u8; 5] = [0x2b, 0x81, 0x04, 0x00, 0x01];

/// ```text
/// sect163r2  OBJECT IDENTIFIER ::= { certicom-curve 15 }
/// ```
///
/// 1.3.132.0.15, as contents octets.
pub const SECT163R2: [u8; 5] = [0x2b, 0x81, 0x04, 0x00, 0x0f];

/// ```text
/// secp224r1  OBJECT IDENTIFIER ::= { certicom-curve 33 }
/// ```
///
/// 1.3.132.0.33, as contents octets.
pub const SECP224R1: [u8; 5] = [0x2b, 0x81, 0x04, 0x00, 0x21];

/// ```text
/// sect233k1  OBJECT IDENTIFIER ::= { certicom-curve 26 }
/// ```
///
/// 1.3.132.0.26, as contents octets.
pub const SECT233K1: [u8; 5] = [0x2b, 0x81, 0x04, 0x00, 0x1a];

/// ```text
/// sect233r1  OBJECT IDENTIFIER ::= { certicom-curve 27 }
/// ```
///
/// 1.3.132.0.27, as contents octets.
pub const SECT233R1: [u8; 5] = [0x2b, 0x81, 0x04, 0x00, 0x1b];

/// ```text
/// secp256r1  OBJECT IDENTIFIER ::= { ansi-X9-62 3 1 7 }
/// ```
///
/// 1.2.840.10045.3.1.7, as contents octets.
pub const SECP256R1: [u8; 8] = [0x2a, 0x86, 0x48, 0xce, 0x3d, 0x03, 0x01, 0x07];

/// ```text
/// sect283k1  OBJECT IDENTIFIER ::= { certicom-curve 16 }
/// ```
///
/// 1.3.132.0.16, as contents octets.
pub const SECT283K1: [u8; 5] = [0x2b, 0x81, 0x04, 0x00, 0x10];

/// ```text
/// sect283r1  OBJECT IDENTIFIER ::= { certicom-curve 17 }
/// ```
///
/// 1.3.132.0.17, as contents octets.
pub const SECT283R1: [u8; 5] = [0x2b, 0x81, 0x04, 0x00, 0x11];

/// ```text
/// secp384r1  OBJECT IDENTIFIER ::= { certicom-curve 34 }
/// ```
///
/// 1.3.132.0.34, as contents octets.
pub const SECP384R1: [u8; 5] = [0x2b, 0x81, 0x04, 0x00, 0x22];

/// ```text
/// sect409k1  OBJECT IDENTIFIER ::= { certicom-curve 36 }
/// ```
///
/// 1.3.132.0.36, as contents octets.
pub const SECT409K1: [u8; 5] = [0x2b, 0x81, 0x04, 0x00, 0x24];

/// ```text
/// sect409r1  OBJECT IDENTIFIER ::= { certicom-curve 37 }
/// ```
///
/// 1.3.132.0.37, as contents octets.
pub const SECT409R1: [u8; 5] = [0x2b, 0x81, 0x04, 0x00, 0x25];

/// ```text
/// secp521r1  OBJECT IDENTIFIER ::= { certicom-curve 35 }
/// ```
///
/// 1.3.132.0.35, as contents octets.
pub const SECP521R1: [u8; 5] = [0x2b, 0x81, 0x04, 0x00, 0x23];

/// ```text
/// sect571k1  OBJECT IDENTIFIER ::= { certicom-curve 38 }
/// ```
///
/// 1.3.132.0.38, as contents octets.
pub const SECT571K1: [u8; 5] = [0x2b, 0x81, 0x04, 0x00, 0x26];

/// ```text
/// sect571r1  OBJECT IDENTIFIER ::= { certicom-curve 39 }
/// ```
///
/// 1.3.132.0.39, as contents octets.
pub const SECT571R1: [u8; 5] = [0x2b, 0x81, 0x04, 0x00, 0x27];

/// ```text
/// transparency  OBJECT IDENTIFIER ::= { 1 3 6 1 4 1 11129 2 4 }
/// ```
///
/// 1.3.6.1.4.1.11129.2.4, as contents octets.
pub const TRANSPARENCY: [u8; 9] = [0x2b, 0x06, 0x01, 0x04, 0x01, 0xd6, 0x79, 0x02, 0x04];

/// ```text
/// id-embedded-scts  OBJECT IDENTIFIER ::= { transparency 2 }
/// ```
///
/// 1.3.6.1.4.1.11129.2.4.2, as contents octets.
pub const ID_EMBEDDED_SCTS: [u8; 10] = [0x2b, 0x06, 0x01, 0x04, 0x01, 0xd6, 0x79, 0x02, 0x04, 0x02];

/// ```text
/// id-poison         OBJECT IDENTIFIER ::= { transparency 3 }
/// ```
///
/// 1.3.6.1.4.1.11129.2.4.3, as contents octets.
pub const ID_POISON: [u8; 10] = [0x2b, 0x06, 0x01, 0x04, 0x01, 0xd6, 0x79, 0x02, 0x04, 0x03];

/// ```text
/// id-ocsp-scts      OBJECT IDENTIFIER ::= { transparency 5 }
/// ```
///
/// 1.3.6.1.4.1.11129.2.4.5, as contents octets.
pub const ID_OCSP_SCTS: [u8; 10] = [0x2b, 0x06, 0x01, 0x04, 0x01, 0xd6, 0x79, 0x02, 0x04, 0x05];
