//! The unused bits of the last octet.

ghost use Rattle.std.specs.Prelude.{◌≡◌, ◌∷◌, length, true};
ghost use Rattle.der_bits.specs.BitString.{AreOctets, can_be_unused, are_zero, bits};

/// Returns whether `count` bits of the last octet can be unused: at most 7, and none if there is
/// no octet.
pub(crate) fn can_be_unused(count: u8, octets: &[u8]) -> bool
    ensures { result ≡ can_be_unused count octets.now }
{
    match octets {
        [] => count == 0,
        _ => count <= 7,
    }
}

/// Returns whether the lowest `count` bits of the last octet are zero.
pub(crate) fn are_zero(count: u8, octets: &[u8]) -> bool
    requires { can_be_unused count octets.now ≡ true }
    ensures { result ≡ are_zero count octets.now }
{
    match octets.last() {
        Some(octet) => octet % (1 << count) == 0,
        None => true,
    }
}

/// Sets the lowest `count` bits of the last octet to zero.
pub(crate) fn clear(count: u8, octets: &mut [u8])
    requires { can_be_unused count octets.old ≡ true }
    ensures length { length octets.new ≡ length octets.old }
    ensures octets { AreOctets octets.new }
    ensures zero { are_zero count octets.new ≡ true }
    ensures bits { bits (count ∷ octets.new) ≡ bits (count ∷ octets.old) }
{
    if let Some(octet) = octets.last_mut() {
        *octet = (*octet >> count) << count;
    }
}
