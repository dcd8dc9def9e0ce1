//! Object identifiers in CmsEnveloped.
//!
//! Made by tools/asn1 from enveloped.asn1.

/// ```text
/// id-envelopedData  OBJECT IDENTIFIER ::= { pkcs-7 3 }
/// ```
///
/// 1.2.840.113549.1.7.3, as contents octets.
pub const ID_ENVELOPED_DATA: [u8; 9] = [0x2a, 0x86, 0x48, 0x86, 0xf7, 0x0d, 0x01, 0x07, 0x03];
