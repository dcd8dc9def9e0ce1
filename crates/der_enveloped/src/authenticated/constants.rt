//! Object identifiers in CmsAuthenticated.
//!
//! Made by tools/asn1 from authenticated.asn1.

/// ```text
/// id-ct-authData  OBJECT IDENTIFIER ::= { pkcs-9 16 1 2 }
/// ```
///
/// 1.2.840.113549.1.9.16.1.2, as contents octets.
pub const ID_CT_AUTH_DATA: [u8; 11] = [
    0x2a, 0x86, 0x48, 0x86, 0xf7, 0x0d, 0x01, 0x09, 0x10, 0x01, 0x02,
];
