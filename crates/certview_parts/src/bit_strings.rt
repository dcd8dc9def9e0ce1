//! BIT STRINGs as text.

use crate::hexadecimal::push_digits;
use crate::page::Page;
use der_asn1_types::asn1::BitStringRef;
use std::alloc::AllocError;
use std::fmt::Write;

/// Adds the number of octets and the octets of a BIT STRING, or the number of bits and the octets
/// if it is not a number of whole octets.
pub fn push_bits(page: &mut Page, bits: &BitStringRef<'_>) -> Result<(), AllocError> {
    let octets = bits.raw_bytes();
    let count = octets.len();
    if bits.unused_bits() == 0 {
        write!(page.text, "{count} octets, ")?;
    } else {
        let count = bits.bit_len();
        write!(page.text, "{count} bits, ")?;
    }
    push_digits(page, octets)
}
