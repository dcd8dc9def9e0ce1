//! Object identifiers in PKIXTSP.
//!
//! Made by tools/asn1 from time_stamp.asn1.

/// ```text
/// id-ct-TSTInfo  OBJECT IDENTIFIER ::= { pkcs-9 16 1 4 }
/// ```
///
/// 1.2.840.113549.1.9.16.1.4, as contents octets.
pub const ID_CT_TST_INFO: [u8; 11] = [
    0x2a, 0x86, 0x48, 0x86, 0xf7, 0x0d, 0x01, 0x09, 0x10, 0x01, 0x04,
];
