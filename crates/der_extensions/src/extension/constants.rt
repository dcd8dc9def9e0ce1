//! Object identifiers in PkixExtensions.
//!
//! Made by tools/asn1 from extension.asn1.

/// ```text
/// id-pkix  OBJECT IDENTIFIER ::=
///      { iso(1) identified-organization(3) dod(6) internet(1) security(5) mechanisms(5) pkix(7) }
/// ```
///
/// 1.3.6.1.5.5.7, as contents octets.
pub const ID_PKIX: [u8; 6] = [0x2b, 0x06, 0x01, 0x05, 0x05, 0x07];

/// ```text
/// id-pe OBJECT IDENTIFIER ::= { id-pkix 1 }
/// ```
///
/// 1.3.6.1.5.5.7.1, as contents octets.
pub const ID_PE: [u8; 7] = [0x2b, 0x06, 0x01, 0x05, 0x05, 0x07, 0x01];

/// ```text
/// id-qt OBJECT IDENTIFIER ::= { id-pkix 2 }
/// ```
///
/// 1.3.6.1.5.5.7.2, as contents octets.
pub const ID_QT: [u8; 7] = [0x2b, 0x06, 0x01, 0x05, 0x05, 0x07, 0x02];

/// ```text
/// id-kp OBJECT IDENTIFIER ::= { id-pkix 3 }
/// ```
///
/// 1.3.6.1.5.5.7.3, as contents octets.
pub const ID_KP: [u8; 7] = [0x2b, 0x06, 0x01, 0x05, 0x05, 0x07, 0x03];

/// ```text
/// id-ad OBJECT IDENTIFIER ::= { id-pkix 48 }
/// ```
///
/// 1.3.6.1.5.5.7.48, as contents octets.
pub const ID_AD: [u8; 7] = [0x2b, 0x06, 0x01, 0x05, 0x05, 0x07, 0x30];

/// ```text
/// id-qt-cps      OBJECT IDENTIFIER ::= { id-qt 1 }
/// ```
///
/// 1.3.6.1.5.5.7.2.1, as contents octets.
pub const ID_QT_CPS: [u8; 8] = [0x2b, 0x06, 0x01, 0x05, 0x05, 0x07, 0x02, 0x01];

/// ```text
/// id-qt-unotice  OBJECT IDENTIFIER ::= { id-qt 2 }
/// ```
///
/// 1.3.6.1.5.5.7.2.2, as contents octets.
pub const ID_QT_UNOTICE: [u8; 8] = [0x2b, 0x06, 0x01, 0x05, 0x05, 0x07, 0x02, 0x02];

/// ```text
/// id-ad-ocsp          OBJECT IDENTIFIER ::= { id-ad 1 }
/// ```
///
/// 1.3.6.1.5.5.7.48.1, as contents octets.
pub const ID_AD_OCSP: [u8; 8] = [0x2b, 0x06, 0x01, 0x05, 0x05, 0x07, 0x30, 0x01];

/// ```text
/// id-ad-caIssuers     OBJECT IDENTIFIER ::= { id-ad 2 }
/// ```
///
/// 1.3.6.1.5.5.7.48.2, as contents octets.
pub const ID_AD_CA_ISSUERS: [u8; 8] = [0x2b, 0x06, 0x01, 0x05, 0x05, 0x07, 0x30, 0x02];

/// ```text
/// id-ad-timeStamping  OBJECT IDENTIFIER ::= { id-ad 3 }
/// ```
///
/// 1.3.6.1.5.5.7.48.3, as contents octets.
pub const ID_AD_TIME_STAMPING: [u8; 8] = [0x2b, 0x06, 0x01, 0x05, 0x05, 0x07, 0x30, 0x03];

/// ```text
/// id-ad-caRepository  OBJECT IDENTIFIER ::= { id-ad 5 }
/// ```
///
/// 1.3.6.1.5.5.7.48.5, as contents octets.
pub const ID_AD_CA_REPOSITORY: [u8; 8] = [0x2b, 0x06, 0x01, 0x05, 0x05, 0x07, 0x30, 0x05];

/// ```text
/// id-ce OBJECT IDENTIFIER  ::=  {joint-iso-ccitt(2) ds(5) 29}
/// ```
///
/// 2.5.29, as contents octets.
pub const ID_CE: [u8; 2] = [0x55, 0x1d];

/// ```text
/// id-ce-authorityKeyIdentifier OBJECT IDENTIFIER ::=  { id-ce 35 }
/// ```
///
/// 2.5.29.35, as contents octets.
pub const ID_CE_AUTHORITY_KEY_IDENTIFIER: [u8; 3] = [0x55, 0x1d, 0x23];

/// ```text
/// id-ce-subjectKeyIdentifier OBJECT IDENTIFIER ::=  { id-ce 14 }
/// ```
///
/// 2.5.29.14, as contents octets.
pub const ID_CE_SUBJECT_KEY_IDENTIFIER: [u8; 3] = [0x55, 0x1d, 0x0e];

/// ```text
/// id-ce-keyUsage OBJECT IDENTIFIER ::=  { id-ce 15 }
/// ```
///
/// 2.5.29.15, as contents octets.
pub const ID_CE_KEY_USAGE: [u8; 3] = [0x55, 0x1d, 0x0f];

/// ```text
/// id-ce-privateKeyUsagePeriod OBJECT IDENTIFIER ::=  { id-ce 16 }
/// ```
///
/// 2.5.29.16, as contents octets.
pub const ID_CE_PRIVATE_KEY_USAGE_PERIOD: [u8; 3] = [0x55, 0x1d, 0x10];

/// ```text
/// id-ce-certificatePolicies OBJECT IDENTIFIER ::=  { id-ce 32 }
/// ```
///
/// 2.5.29.32, as contents octets.
pub const ID_CE_CERTIFICATE_POLICIES: [u8; 3] = [0x55, 0x1d, 0x20];

/// ```text
/// anyPolicy OBJECT IDENTIFIER ::= { id-ce-certificatePolicies 0 }
/// ```
///
/// 2.5.29.32.0, as contents octets.
pub const ANY_POLICY: [u8; 4] = [0x55, 0x1d, 0x20, 0x00];

/// ```text
/// id-ce-policyMappings OBJECT IDENTIFIER ::=  { id-ce 33 }
/// ```
///
/// 2.5.29.33, as contents octets.
pub const ID_CE_POLICY_MAPPINGS: [u8; 3] = [0x55, 0x1d, 0x21];

/// ```text
/// id-ce-subjectAltName OBJECT IDENTIFIER ::=  { id-ce 17 }
/// ```
///
/// 2.5.29.17, as contents octets.
pub const ID_CE_SUBJECT_ALT_NAME: [u8; 3] = [0x55, 0x1d, 0x11];

/// ```text
/// id-ce-issuerAltName OBJECT IDENTIFIER ::=  { id-ce 18 }
/// ```
///
/// 2.5.29.18, as contents octets.
pub const ID_CE_ISSUER_ALT_NAME: [u8; 3] = [0x55, 0x1d, 0x12];

/// ```text
/// id-ce-subjectDirectoryAttributes OBJECT IDENTIFIER ::=  { id-ce 9 }
/// ```
///
/// 2.5.29.9, as contents octets.
pub const ID_CE_SUBJECT_DIRECTORY_ATTRIBUTES: [u8; 3] = [0x55, 0x1d, 0x09];

/// ```text
/// id-ce-basicConstraints OBJECT IDENTIFIER ::=  { id-ce 19 }
/// ```
///
/// 2.5.29.19, as contents octets.
pub const ID_CE_BASIC_CONSTRAINTS: [u8; 3] = [0x55, 0x1d, 0x13];

/// ```text
/// id-ce-nameConstraints OBJECT IDENTIFIER ::=  { id-ce 30 }
/// ```
///
/// 2.5.29.30, as contents octets.
pub const ID_CE_NAME_CONSTRAINTS: [u8; 3] = [0x55, 0x1d, 0x1e];

/// ```text
/// id-ce-policyConstraints OBJECT IDENTIFIER ::=  { id-ce 36 }
/// ```
///
/// 2.5.29.36, as contents octets.
pub const ID_CE_POLICY_CONSTRAINTS: [u8; 3] = [0x55, 0x1d, 0x24];

/// ```text
/// id-ce-cRLDistributionPoints     OBJECT IDENTIFIER  ::=  {id-ce 31}
/// ```
///
/// 2.5.29.31, as contents octets.
pub const ID_CE_CRL_DISTRIBUTION_POINTS: [u8; 3] = [0x55, 0x1d, 0x1f];

/// ```text
/// id-ce-extKeyUsage OBJECT IDENTIFIER ::= {id-ce 37}
/// ```
///
/// 2.5.29.37, as contents octets.
pub const ID_CE_EXT_KEY_USAGE: [u8; 3] = [0x55, 0x1d, 0x25];

/// ```text
/// anyExtendedKeyUsage OBJECT IDENTIFIER ::= { id-ce-extKeyUsage 0 }
/// ```
///
/// 2.5.29.37.0, as contents octets.
pub const ANY_EXTENDED_KEY_USAGE: [u8; 4] = [0x55, 0x1d, 0x25, 0x00];

/// ```text
/// id-kp-serverAuth             OBJECT IDENTIFIER ::= { id-kp 1 }
/// ```
///
/// 1.3.6.1.5.5.7.3.1, as contents octets.
pub const ID_KP_SERVER_AUTH: [u8; 8] = [0x2b, 0x06, 0x01, 0x05, 0x05, 0x07, 0x03, 0x01];

/// ```text
/// id-kp-clientAuth             OBJECT IDENTIFIER ::= { id-kp 2 }
/// ```
///
/// 1.3.6.1.5.5.7.3.2, as contents octets.
pub const ID_KP_CLIENT_AUTH: [u8; 8] = [0x2b, 0x06, 0x01, 0x05, 0x05, 0x07, 0x03, 0x02];

/// ```text
/// id-kp-codeSigning            OBJECT IDENTIFIER ::= { id-kp 3 }
/// ```
///
/// 1.3.6.1.5.5.7.3.3, as contents octets.
pub const ID_KP_CODE_SIGNING: [u8; 8] = [0x2b, 0x06, 0x01, 0x05, 0x05, 0x07, 0x03, 0x03];

/// ```text
/// id-kp-emailProtection        OBJECT IDENTIFIER ::= { id-kp 4 }
/// ```
///
/// 1.3.6.1.5.5.7.3.4, as contents octets.
pub const ID_KP_EMAIL_PROTECTION: [u8; 8] = [0x2b, 0x06, 0x01, 0x05, 0x05, 0x07, 0x03, 0x04];

/// ```text
/// id-kp-timeStamping           OBJECT IDENTIFIER ::= { id-kp 8 }
/// ```
///
/// 1.3.6.1.5.5.7.3.8, as contents octets.
pub const ID_KP_TIME_STAMPING: [u8; 8] = [0x2b, 0x06, 0x01, 0x05, 0x05, 0x07, 0x03, 0x08];

/// ```text
/// id-kp-OCSPSigning            OBJECT IDENTIFIER ::= { id-kp 9 }
/// ```
///
/// 1.3.6.1.5.5.7.3.9, as contents octets.
pub const ID_KP_OCSP_SIGNING: [u8; 8] = [0x2b, 0x06, 0x01, 0x05, 0x05, 0x07, 0x03, 0x09];

/// ```text
/// id-ce-inhibitAnyPolicy OBJECT IDENTIFIER ::=  { id-ce 54 }
/// ```
///
/// 2.5.29.54, as contents octets.
pub const ID_CE_INHIBIT_ANY_POLICY: [u8; 3] = [0x55, 0x1d, 0x36];

/// ```text
/// id-ce-freshestCRL OBJECT IDENTIFIER ::=  { id-ce 46 }
/// ```
///
/// 2.5.29.46, as contents octets.
pub const ID_CE_FRESHEST_CRL: [u8; 3] = [0x55, 0x1d, 0x2e];

/// ```text
/// id-pe-authorityInfoAccess OBJECT IDENTIFIER ::= { id-pe 1 }
/// ```
///
/// 1.3.6.1.5.5.7.1.1, as contents octets.
pub const ID_PE_AUTHORITY_INFO_ACCESS: [u8; 8] = [0x2b, 0x06, 0x01, 0x05, 0x05, 0x07, 0x01, 0x01];

/// ```text
/// id-pe-subjectInfoAccess OBJECT IDENTIFIER ::= { id-pe 11 }
/// ```
///
/// 1.3.6.1.5.5.7.1.11, as contents octets.
pub const ID_PE_SUBJECT_INFO_ACCESS: [u8; 8] = [0x2b, 0x06, 0x01, 0x05, 0x05, 0x07, 0x01, 0x0b];

/// ```text
/// id-ce-cRLNumber OBJECT IDENTIFIER ::= { id-ce 20 }
/// ```
///
/// 2.5.29.20, as contents octets.
pub const ID_CE_CRL_NUMBER: [u8; 3] = [0x55, 0x1d, 0x14];

/// ```text
/// id-ce-issuingDistributionPoint OBJECT IDENTIFIER ::= { id-ce 28 }
/// ```
///
/// 2.5.29.28, as contents octets.
pub const ID_CE_ISSUING_DISTRIBUTION_POINT: [u8; 3] = [0x55, 0x1d, 0x1c];

/// ```text
/// id-ce-deltaCRLIndicator OBJECT IDENTIFIER ::= { id-ce 27 }
/// ```
///
/// 2.5.29.27, as contents octets.
pub const ID_CE_DELTA_CRL_INDICATOR: [u8; 3] = [0x55, 0x1d, 0x1b];

/// ```text
/// id-ce-cRLReasons OBJECT IDENTIFIER ::= { id-ce 21 }
/// ```
///
/// 2.5.29.21, as contents octets.
pub const ID_CE_CRL_REASONS: [u8; 3] = [0x55, 0x1d, 0x15];

/// ```text
/// id-ce-certificateIssuer OBJECT IDENTIFIER ::= { id-ce 29 }
/// ```
///
/// 2.5.29.29, as contents octets.
pub const ID_CE_CERTIFICATE_ISSUER: [u8; 3] = [0x55, 0x1d, 0x1d];

/// ```text
/// id-ce-holdInstructionCode OBJECT IDENTIFIER ::= { id-ce 23 }
/// ```
///
/// 2.5.29.23, as contents octets.
pub const ID_CE_HOLD_INSTRUCTION_CODE: [u8; 3] = [0x55, 0x1d, 0x17];

/// ```text
/// holdInstruction OBJECT IDENTIFIER ::=
///           {joint-iso-itu-t(2) member-body(2) us(840) x9cm(10040) 2}
/// ```
///
/// 2.2.840.10040.2, as contents octets.
pub const HOLD_INSTRUCTION: [u8; 6] = [0x52, 0x86, 0x48, 0xce, 0x38, 0x02];

/// ```text
/// id-holdinstruction-none OBJECT IDENTIFIER  ::=
///                                       {holdInstruction 1}
/// ```
///
/// 2.2.840.10040.2.1, as contents octets.
pub const ID_HOLDINSTRUCTION_NONE: [u8; 7] = [0x52, 0x86, 0x48, 0xce, 0x38, 0x02, 0x01];

/// ```text
/// id-holdinstruction-callissuer OBJECT IDENTIFIER ::=
///                                       {holdInstruction 2}
/// ```
///
/// 2.2.840.10040.2.2, as contents octets.
pub const ID_HOLDINSTRUCTION_CALLISSUER: [u8; 7] = [0x52, 0x86, 0x48, 0xce, 0x38, 0x02, 0x02];

/// ```text
/// id-holdinstruction-reject OBJECT IDENTIFIER ::=
///                                       {holdInstruction 3}
/// ```
///
/// 2.2.840.10040.2.3, as contents octets.
pub const ID_HOLDINSTRUCTION_REJECT: [u8; 7] = [0x52, 0x86, 0x48, 0xce, 0x38, 0x02, 0x03];

/// ```text
/// id-ce-invalidityDate OBJECT IDENTIFIER ::= { id-ce 24 }
/// ```
///
/// 2.5.29.24, as contents octets.
pub const ID_CE_INVALIDITY_DATE: [u8; 3] = [0x55, 0x1d, 0x18];
