//! Object identifiers in PKCS-12.
//!
//! Made by tools/asn1 from pkcs12.asn1.

/// ```text
/// pkcs-12  OBJECT IDENTIFIER ::= { rsadsi pkcs(1) 12 }
/// ```
///
/// 1.2.840.113549.1.12, as contents octets.
pub const PKCS_12: [u8; 8] = [0x2a, 0x86, 0x48, 0x86, 0xf7, 0x0d, 0x01, 0x0c];

/// ```text
/// bagtypes  OBJECT IDENTIFIER ::= { pkcs-12 10 1 }
/// ```
///
/// 1.2.840.113549.1.12.10.1, as contents octets.
pub const BAGTYPES: [u8; 10] = [0x2a, 0x86, 0x48, 0x86, 0xf7, 0x0d, 0x01, 0x0c, 0x0a, 0x01];

/// ```text
/// keyBag               OBJECT IDENTIFIER ::= { bagtypes 1 }
/// ```
///
/// 1.2.840.113549.1.12.10.1.1, as contents octets.
pub const KEY_BAG: [u8; 11] = [
    0x2a, 0x86, 0x48, 0x86, 0xf7, 0x0d, 0x01, 0x0c, 0x0a, 0x01, 0x01,
];

/// ```text
/// pkcs8ShroudedKeyBag  OBJECT IDENTIFIER ::= { bagtypes 2 }
/// ```
///
/// 1.2.840.113549.1.12.10.1.2, as contents octets.
pub const PKCS8_SHROUDED_KEY_BAG: [u8; 11] = [
    0x2a, 0x86, 0x48, 0x86, 0xf7, 0x0d, 0x01, 0x0c, 0x0a, 0x01, 0x02,
];

/// ```text
/// certBag              OBJECT IDENTIFIER ::= { bagtypes 3 }
/// ```
///
/// 1.2.840.113549.1.12.10.1.3, as contents octets.
pub const CERT_BAG: [u8; 11] = [
    0x2a, 0x86, 0x48, 0x86, 0xf7, 0x0d, 0x01, 0x0c, 0x0a, 0x01, 0x03,
];

/// ```text
/// crlBag               OBJECT IDENTIFIER ::= { bagtypes 4 }
/// ```
///
/// 1.2.840.113549.1.12.10.1.4, as contents octets.
pub const CRL_BAG: [u8; 11] = [
    0x2a, 0x86, 0x48, 0x86, 0xf7, 0x0d, 0x01, 0x0c, 0x0a, 0x01, 0x04,
];

/// ```text
/// secretBag            OBJECT IDENTIFIER ::= { bagtypes 5 }
/// ```
///
/// 1.2.840.113549.1.12.10.1.5, as contents octets.
pub const SECRET_BAG: [u8; 11] = [
    0x2a, 0x86, 0x48, 0x86, 0xf7, 0x0d, 0x01, 0x0c, 0x0a, 0x01, 0x05,
];

/// ```text
/// safeContentsBag      OBJECT IDENTIFIER ::= { bagtypes 6 }
/// ```
///
/// 1.2.840.113549.1.12.10.1.6, as contents octets.
pub const SAFE_CONTENTS_BAG: [u8; 11] = [
    0x2a, 0x86, 0x48, 0x86, 0xf7, 0x0d, 0x01, 0x0c, 0x0a, 0x01, 0x06,
];

/// ```text
/// certTypes  OBJECT IDENTIFIER ::= { pkcs-9 22 }
/// ```
///
/// 1.2.840.113549.1.9.22, as contents octets.
pub const CERT_TYPES: [u8; 9] = [0x2a, 0x86, 0x48, 0x86, 0xf7, 0x0d, 0x01, 0x09, 0x16];

/// ```text
/// crlTypes   OBJECT IDENTIFIER ::= { pkcs-9 23 }
/// ```
///
/// 1.2.840.113549.1.9.23, as contents octets.
pub const CRL_TYPES: [u8; 9] = [0x2a, 0x86, 0x48, 0x86, 0xf7, 0x0d, 0x01, 0x09, 0x17];

/// ```text
/// x509Certificate  OBJECT IDENTIFIER ::= { certTypes 1 }
/// ```
///
/// 1.2.840.113549.1.9.22.1, as contents octets.
pub const X509_CERTIFICATE: [u8; 10] = [0x2a, 0x86, 0x48, 0x86, 0xf7, 0x0d, 0x01, 0x09, 0x16, 0x01];

/// ```text
/// sdsiCertificate  OBJECT IDENTIFIER ::= { certTypes 2 }
/// ```
///
/// 1.2.840.113549.1.9.22.2, as contents octets.
pub const SDSI_CERTIFICATE: [u8; 10] = [0x2a, 0x86, 0x48, 0x86, 0xf7, 0x0d, 0x01, 0x09, 0x16, 0x02];

/// ```text
/// x509CRL          OBJECT IDENTIFIER ::= { crlTypes 1 }
/// ```
///
/// 1.2.840.113549.1.9.23.1, as contents octets.
pub const X509_CRL: [u8; 10] = [0x2a, 0x86, 0x48, 0x86, 0xf7, 0x0d, 0x01, 0x09, 0x17, 0x01];

/// ```text
/// pkcs-9-at-friendlyName  OBJECT IDENTIFIER ::= { pkcs-9 20 }
/// ```
///
/// 1.2.840.113549.1.9.20, as contents octets.
pub const PKCS_9_AT_FRIENDLY_NAME: [u8; 9] = [0x2a, 0x86, 0x48, 0x86, 0xf7, 0x0d, 0x01, 0x09, 0x14];

/// ```text
/// pkcs-9-at-localKeyId    OBJECT IDENTIFIER ::= { pkcs-9 21 }
/// ```
///
/// 1.2.840.113549.1.9.21, as contents octets.
pub const PKCS_9_AT_LOCAL_KEY_ID: [u8; 9] = [0x2a, 0x86, 0x48, 0x86, 0xf7, 0x0d, 0x01, 0x09, 0x15];

/// ```text
/// pkcs-12PbeIds  OBJECT IDENTIFIER ::= { pkcs-12 1 }
/// ```
///
/// 1.2.840.113549.1.12.1, as contents octets.
pub const PKCS_12_PBE_IDS: [u8; 9] = [0x2a, 0x86, 0x48, 0x86, 0xf7, 0x0d, 0x01, 0x0c, 0x01];

/// ```text
/// pbeWithSHAAnd128BitRC4           OBJECT IDENTIFIER ::= { pkcs-12PbeIds 1 }
/// ```
///
/// 1.2.840.113549.1.12.1.1, as contents octets.
pub const PBE_WITH_SHA_AND128_BIT_RC4: [u8; 10] = [
    0x2a, 0x86, 0x48, 0x86, 0xf7, 0x0d, 0x01, 0x0c, 0x01, 0x01,
];

/// ```text
/// pbeWithSHAAnd40BitRC4            OBJECT IDENTIFIER ::= { pkcs-12PbeIds 2 }
/// ```
///
/// 1.2.840.113549.1.12.1.2, as contents octets.
pub const PBE_WITH_SHA_AND40_BIT_RC4: [u8; 10] = [
    0x2a, 0x86, 0x48, 0x86, 0xf7, 0x0d, 0x01, 0x0c, 0x01, 0x02,
];

/// ```text
/// pbeWithSHAAnd3-KeyTripleDES-CBC  OBJECT IDENTIFIER ::= { pkcs-12PbeIds 3 }
/// ```
///
/// 1.2.840.113549.1.12.1.3, as contents octets.
pub const PBE_WITH_SHA_AND3_KEY_TRIPLE_DES_CBC: [u8; 10] = [
    0x2a, 0x86, 0x48, 0x86, 0xf7, 0x0d, 0x01, 0x0c, 0x01, 0x03,
];

/// ```text
/// pbeWithSHAAnd2-KeyTripleDES-CBC  OBJECT IDENTIFIER ::= { pkcs-12PbeIds 4 }
/// ```
///
/// 1.2.840.113549.1.12.1.4, as contents octets.
pub const PBE_WITH_SHA_AND2_KEY_TRIPLE_DES_CBC: [u8; 10] = [
    0x2a, 0x86, 0x48, 0x86, 0xf7, 0x0d, 0x01, 0x0c, 0x01, 0x04,
];

/// ```text
/// pbeWithSHAAnd128BitRC2-CBC       OBJECT IDENTIFIER ::= { pkcs-12PbeIds 5 }
/// ```
///
/// 1.2.840.113549.1.12.1.5, as contents octets.
pub const PBE_WITH_SHA_AND128_BIT_RC2_CBC: [u8; 10] = [
    0x2a, 0x86, 0x48, 0x86, 0xf7, 0x0d, 0x01, 0x0c, 0x01, 0x05,
];

/// ```text
/// pbewithSHAAnd40BitRC2-CBC        OBJECT IDENTIFIER ::= { pkcs-12PbeIds 6 }
/// ```
///
/// 1.2.840.113549.1.12.1.6, as contents octets.
pub const PBEWITH_SHA_AND40_BIT_RC2_CBC: [u8; 10] = [
    0x2a, 0x86, 0x48, 0x86, 0xf7, 0x0d, 0x01, 0x0c, 0x01, 0x06,
];
