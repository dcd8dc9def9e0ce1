//! Object identifiers in OCSP-2013-88.
//!
//! Made by tools/asn1 from ocsp.asn1.

/// ```text
/// id-pkix-ocsp                  OBJECT IDENTIFIER ::= { id-ad-ocsp }
/// ```
///
/// 1.3.6.1.5.5.7.48.1, as contents octets.
pub const ID_PKIX_OCSP: [u8; 8] = [0x2b, 0x06, 0x01, 0x05, 0x05, 0x07, 0x30, 0x01];

/// ```text
/// id-pkix-ocsp-basic            OBJECT IDENTIFIER ::= { id-pkix-ocsp 1 }
/// ```
///
/// 1.3.6.1.5.5.7.48.1.1, as contents octets.
pub const ID_PKIX_OCSP_BASIC: [u8; 9] = [0x2b, 0x06, 0x01, 0x05, 0x05, 0x07, 0x30, 0x01, 0x01];

/// ```text
/// id-pkix-ocsp-nonce            OBJECT IDENTIFIER ::= { id-pkix-ocsp 2 }
/// ```
///
/// 1.3.6.1.5.5.7.48.1.2, as contents octets.
pub const ID_PKIX_OCSP_NONCE: [u8; 9] = [0x2b, 0x06, 0x01, 0x05, 0x05, 0x07, 0x30, 0x01, 0x02];

/// ```text
/// id-pkix-ocsp-crl              OBJECT IDENTIFIER ::= { id-pkix-ocsp 3 }
/// ```
///
/// 1.3.6.1.5.5.7.48.1.3, as contents octets.
pub const ID_PKIX_OCSP_CRL: [u8; 9] = [0x2b, 0x06, 0x01, 0x05, 0x05, 0x07, 0x30, 0x01, 0x03];

/// ```text
/// id-pkix-ocsp-response         OBJECT IDENTIFIER ::= { id-pkix-ocsp 4 }
/// ```
///
/// 1.3.6.1.5.5.7.48.1.4, as contents octets.
pub const ID_PKIX_OCSP_RESPONSE: [u8; 9] = [0x2b, 0x06, 0x01, 0x05, 0x05, 0x07, 0x30, 0x01, 0x04];

/// ```text
/// id-pkix-ocsp-nocheck          OBJECT IDENTIFIER ::= { id-pkix-ocsp 5 }
/// ```
///
/// 1.3.6.1.5.5.7.48.1.5, as contents octets.
pub const ID_PKIX_OCSP_NOCHECK: [u8; 9] = [0x2b, 0x06, 0x01, 0x05, 0x05, 0x07, 0x30, 0x01, 0x05];

/// ```text
/// id-pkix-ocsp-archive-cutoff   OBJECT IDENTIFIER ::= { id-pkix-ocsp 6 }
/// ```
///
/// 1.3.6.1.5.5.7.48.1.6, as contents octets.
pub const ID_PKIX_OCSP_ARCHIVE_CUTOFF: [u8; 9] = [
    0x2b, 0x06, 0x01, 0x05, 0x05, 0x07, 0x30, 0x01, 0x06,
];

/// ```text
/// id-pkix-ocsp-service-locator  OBJECT IDENTIFIER ::= { id-pkix-ocsp 7 }
/// ```
///
/// 1.3.6.1.5.5.7.48.1.7, as contents octets.
pub const ID_PKIX_OCSP_SERVICE_LOCATOR: [u8; 9] = [
    0x2b, 0x06, 0x01, 0x05, 0x05, 0x07, 0x30, 0x01, 0x07,
];

/// ```text
/// id-pkix-ocsp-pref-sig-algs    OBJECT IDENTIFIER ::= { id-pkix-ocsp 8 }
/// ```
///
/// 1.3.6.1.5.5.7.48.1.8, as contents octets.
pub const ID_PKIX_OCSP_PREF_SIG_ALGS: [u8; 9] = [
    0x2b, 0x06, 0x01, 0x05, 0x05, 0x07, 0x30, 0x01, 0x08,
];

/// ```text
/// id-pkix-ocsp-extended-revoke  OBJECT IDENTIFIER ::= { id-pkix-ocsp 9 }
/// ```
///
/// 1.3.6.1.5.5.7.48.1.9, as contents octets.
pub const ID_PKIX_OCSP_EXTENDED_REVOKE: [u8; 9] = [
    0x2b, 0x06, 0x01, 0x05, 0x05, 0x07, 0x30, 0x01, 0x09,
];
