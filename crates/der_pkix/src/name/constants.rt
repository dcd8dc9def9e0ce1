//! Object identifiers in PkixNames.
//!
//! Made by tools/asn1 from name.asn1.

/// ```text
/// id-at OBJECT IDENTIFIER ::= { joint-iso-ccitt(2) ds(5) 4 }
/// ```
///
/// 2.5.4, as contents octets.
pub const ID_AT: [u8; 2] = [0x55, 0x04];

/// ```text
/// id-at-commonName              AttributeType ::= { id-at 3 }
/// ```
///
/// 2.5.4.3, as contents octets.
pub const ID_AT_COMMON_NAME: [u8; 3] = [0x55, 0x04, 0x03];

/// ```text
/// id-at-surname                 AttributeType ::= { id-at 4 }
/// ```
///
/// 2.5.4.4, as contents octets.
pub const ID_AT_SURNAME: [u8; 3] = [0x55, 0x04, 0x04];

/// ```text
/// id-at-serialNumber            AttributeType ::= { id-at 5 }
/// ```
///
/// 2.5.4.5, as contents octets.
pub const ID_AT_SERIAL_NUMBER: [u8; 3] = [0x55, 0x04, 0x05];

/// ```text
/// id-at-countryName             AttributeType ::= { id-at 6 }
/// ```
///
/// 2.5.4.6, as contents octets.
pub const ID_AT_COUNTRY_NAME: [u8; 3] = [0x55, 0x04, 0x06];

/// ```text
/// id-at-localityName            AttributeType ::= { id-at 7 }
/// ```
///
/// 2.5.4.7, as contents octets.
pub const ID_AT_LOCALITY_NAME: [u8; 3] = [0x55, 0x04, 0x07];

/// ```text
/// id-at-stateOrProvinceName     AttributeType ::= { id-at 8 }
/// ```
///
/// 2.5.4.8, as contents octets.
pub const ID_AT_STATE_OR_PROVINCE_NAME: [u8; 3] = [0x55, 0x04, 0x08];

/// ```text
/// id-at-organizationName        AttributeType ::= { id-at 10 }
/// ```
///
/// 2.5.4.10, as contents octets.
pub const ID_AT_ORGANIZATION_NAME: [u8; 3] = [0x55, 0x04, 0x0a];

/// ```text
/// id-at-organizationalUnitName  AttributeType ::= { id-at 11 }
/// ```
///
/// 2.5.4.11, as contents octets.
pub const ID_AT_ORGANIZATIONAL_UNIT_NAME: [u8; 3] = [0x55, 0x04, 0x0b];

/// ```text
/// id-at-title                   AttributeType ::= { id-at 12 }
/// ```
///
/// 2.5.4.12, as contents octets.
pub const ID_AT_TITLE: [u8; 3] = [0x55, 0x04, 0x0c];

/// ```text
/// id-at-name                    AttributeType ::= { id-at 41 }
/// ```
///
/// 2.5.4.41, as contents octets.
pub const ID_AT_NAME: [u8; 3] = [0x55, 0x04, 0x29];

/// ```text
/// id-at-givenName               AttributeType ::= { id-at 42 }
/// ```
///
/// 2.5.4.42, as contents octets.
pub const ID_AT_GIVEN_NAME: [u8; 3] = [0x55, 0x04, 0x2a];

/// ```text
/// id-at-initials                AttributeType ::= { id-at 43 }
/// ```
///
/// 2.5.4.43, as contents octets.
pub const ID_AT_INITIALS: [u8; 3] = [0x55, 0x04, 0x2b];

/// ```text
/// id-at-generationQualifier     AttributeType ::= { id-at 44 }
/// ```
///
/// 2.5.4.44, as contents octets.
pub const ID_AT_GENERATION_QUALIFIER: [u8; 3] = [0x55, 0x04, 0x2c];

/// ```text
/// id-at-dnQualifier             AttributeType ::= { id-at 46 }
/// ```
///
/// 2.5.4.46, as contents octets.
pub const ID_AT_DN_QUALIFIER: [u8; 3] = [0x55, 0x04, 0x2e];

/// ```text
/// id-at-pseudonym               AttributeType ::= { id-at 65 }
/// ```
///
/// 2.5.4.65, as contents octets.
pub const ID_AT_PSEUDONYM: [u8; 3] = [0x55, 0x04, 0x41];

/// ```text
/// id-domainComponent  AttributeType ::= { 0 9 2342 19200300 100 1 25 }
/// ```
///
/// 0.9.2342.19200300.100.1.25, as contents octets.
pub const ID_DOMAIN_COMPONENT: [u8; 10] = [
    0x09, 0x92, 0x26, 0x89, 0x93, 0xf2, 0x2c, 0x64, 0x01, 0x19,
];

/// ```text
/// pkcs-9  OBJECT IDENTIFIER ::=
///      { iso(1) member-body(2) us(840) rsadsi(113549) pkcs(1) 9 }
/// ```
///
/// 1.2.840.113549.1.9, as contents octets.
pub const PKCS_9: [u8; 8] = [0x2a, 0x86, 0x48, 0x86, 0xf7, 0x0d, 0x01, 0x09];

/// ```text
/// id-emailAddress  AttributeType ::= { pkcs-9 1 }
/// ```
///
/// 1.2.840.113549.1.9.1, as contents octets.
pub const ID_EMAIL_ADDRESS: [u8; 9] = [0x2a, 0x86, 0x48, 0x86, 0xf7, 0x0d, 0x01, 0x09, 0x01];
