//! The sizes of keys in octets.

use der_asn1_types::asn1::BitStringRef;

/// X25519 (RFC 8410 section 3).
const ID_X25519: &[u8] = &[0x2b, 0x65, 110];

/// X448 (RFC 8410 section 3).
const ID_X448: &[u8] = &[0x2b, 0x65, 111];

/// Ed25519 (RFC 8410 section 3).
const ID_ED25519: &[u8] = &[0x2b, 0x65, 112];

/// Ed448 (RFC 8410 section 3).
const ID_ED448: &[u8] = &[0x2b, 0x65, 113];

/// Returns the number of octets of a key whose algorithm has an identifier with these contents
/// octets, if it is one of RFC 8410: X25519, X448, Ed25519 and Ed448 (RFC 7748 section 5, RFC
/// 8032 sections 5.1.5 and 5.2.5).
pub fn size_of(algorithm: &[u8]) -> Option<usize> {
    match algorithm {
        ID_X25519 | ID_ED25519 => Some(32),
        ID_X448 => Some(56),
        ID_ED448 => Some(57),
        _ => None,
    }
}

/// Returns whether a BIT STRING has the form of a point of a curve with field elements of `bits`
/// bits: 04 and two elements, 02 or 03 and one (SEC 1 section 2.3.3), or 06 or 07 and two, which
/// X9.62 also allows. The point at infinity is no key.
pub fn is_point(point: &BitStringRef<'_>, bits: usize) -> bool {
    if point.unused_bits() != 0 {
        return false;
    }
    let size = bits.saturating_add(7) / 8;
    match point.raw_bytes() {
        [2 | 3, element @ ..] => element.len() == size,
        [4 | 6 | 7, elements @ ..] => elements.len() == size.saturating_mul(2),
        _ => false,
    }
}
