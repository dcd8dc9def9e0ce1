//! Flags in a BIT STRING.

ghost use Rattle.std.specs.Prelude.{◌≡◌, ◌<◌, true, false, ◌≤◌};
ghost use Rattle.der_asn1_types.specs.BitString.{bit, bit_count};
ghost use Rattle.der_asn1_types.specs.BitStringRef.{contents_of};
ghost use Rattle.der_asn1_types.specs.NamedBitsRef as named;

use der_asn1_types::FormValue;
use der_asn1_types::asn1::{BitStringRef, NamedBitsRef};

/// Returns whether a key may sign certificates: bit 5 of KeyUsage (RFC 5280 4.2.1.3). A bit that
/// is left out is zero.
pub fn may_sign_certificates<'a>(usage: BitStringRef<'a>) -> bool
    ensures present { 5 < bit_count (contents_of usage.entry)
        → result ≡ bit (contents_of usage.entry) 5 }
    ensures absent { bit_count (contents_of usage.entry) ≤ 5 → result ≡ false }
{
    usage.get(5).unwrap_or(false)
}

/// Returns whether a KeyUsage has the bit with this number. It is encoded without 0 bits at its
/// end.
pub fn is_usage<'a>(usage: NamedBitsRef<'a>, number: usize) -> bool
    ensures { result ≡ bit (named.contents_of usage.entry) number }
{
    usage.has(number)
}
